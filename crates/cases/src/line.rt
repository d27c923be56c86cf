// A line of numbers in base ten, parted by commas, a line feed at the end.
ghost use Rattle.std.specs.Prelude.{◌*◌, ◌<◌, ◌≤◌, length};

// What stands behind field i of n.
fn behind(i: usize, n: usize) -> u8
    requires { i < n }
{
    if i + 1 < n { b',' } else { b'\n' }
}

// The line of these fields, from the start of `out` on, and its length.
pub fn put_line(out: &mut [u8], fields: &[u32]) -> usize
    requires { length fields.now ≤ 1000 }
    ensures { result ≤ 11 * length fields.now }
{
    let mut at = 0;
    for (i, field) in fields.iter().enumerate() {
        at = decimal::put_decimal(out, at, *field);
        decimal::put_byte(out, at, behind(i, fields.len()));
        at += 1;
    }
    at
}
