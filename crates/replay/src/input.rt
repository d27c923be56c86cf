// The part of the stream that is in the buffer and not answered yet.
ghost use Rattle.std.specs.Prelude.{◌≡◌, ◌-◌, ◌≤◌, length};

use cases::stream::Case;
use std::io::Read;

// An array and two places in it: what is answered leaves at the front without a copy.
#[derive(Drop)]
pub struct Window {
    buffer: [u8; Window::BYTES],
    from: usize,
    end: usize,
    pub ghost within: { (from ≤ end) × (end ≤ 65536) },
}

impl Window {
    const BYTES: usize = 65536;

    // An empty window.
    pub fn new() -> Window
        ensures { (result.from ≡ 0) × (result.end ≡ 0) }
    {
        Window {
            buffer: [0; Window::BYTES],
            from: 0,
            end: 0,
        }
    }

    // Reads on, so that the window holds a whole case, or all that is left of the stream.
    pub fn refill<R: Read>(&mut self, reader: &mut R) {
        let kept = self.end - self.from;
        if Case::BYTES <= kept {
            return;
        }
        self.buffer.copy_within(self.from..self.end, 0);
        let got = read_full(reader, &mut self.buffer[kept..]);
        self.from = 0;
        self.end = kept + got;
    }

    pub fn bytes(&self) -> &[u8] {
        &self.buffer[self.from..self.end]
    }

    // Only the last `count` bytes are left, or all where there are fewer.
    pub fn keep(&mut self, count: usize) {
        self.from = self.from.max(self.end.saturating_sub(count));
    }
}

// Reads until the buffer is full, the stream ends or a read fails, and gives how many bytes it put at the start of the buffer.
fn read_full<R: Read>(reader: &mut R, buffer: &mut [u8]) -> usize
    ensures { result ≤ length buffer.new }
{
    let mut done = 0;
    // A `while`: how far a read gets is known only after it.
    while done < buffer.len() {
        let n = reader.read(&mut buffer[done..]).unwrap_or(0);
        if n == 0 {
            break;
        }
        done += n;
    }
    done
}
