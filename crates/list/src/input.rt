// Standard input to its end: what fits a buffer is kept, the rest is passed over.
ghost use Rattle.std.specs.Prelude.{IfOk};
ghost use Rattle.list.specs.Counts.{IsPrefixLen};

use std::io;
use std::io::Read;

// Reads until the buffer is full or the input ends, and gives how many bytes it put at the start of the buffer.
fn fill<R: Read>(reader: &mut R, buffer: &mut [u8]) -> io::Result<usize>
    ensures { IfOk result (λ n. IsPrefixLen n buffer.new) }
{
    let mut done = 0;
    // A `while`: how far a read gets is known only after it.
    while done < buffer.len() {
        let n = reader.read(&mut buffer[done..])?;
        if n == 0 {
            break;
        }
        done += n;
    }
    Ok(done)
}

// Reads to the end, and drops the bytes.
fn skip<R: Read>(reader: &mut R) -> io::Result<()> {
    let mut space = [0u8; 4096];
    // Nothing says that the input ends: the count is one that no run uses up.
    for _ in 0..u64::MAX {
        if reader.read(&mut space)? == 0 {
            break;
        }
    }
    Ok(())
}

// How many bytes at the start of the buffer the input gave, once it is at its end.
pub fn read<R: Read>(reader: &mut R, buffer: &mut [u8]) -> io::Result<usize>
    ensures { IfOk result (λ n. IsPrefixLen n buffer.new) }
{
    let n = fill(reader, buffer)?;
    if n == buffer.len() {
        skip(reader)?;
    }
    Ok(n)
}
