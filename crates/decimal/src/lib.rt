// Numbers written in base ten into a lent buffer.
#![tactic(auto)]

ghost use Rattle.std.specs.Prelude.{◌≡◌, ◌+◌, ◌<◌, ◌^◌, length, set};
ghost use Rattle.std.proofs.lemmas.List.Edits.{sets};
ghost use Rattle.decimal.specs.Decimal.{decimal_of};

// Buffer and place apart: `cases` and the writer of cfg_write each keep the place in their own way.
// One byte stored; past the end nothing is. An `if` and no `get_mut`: of a slice lent by that a proof knows no element afterwards.
pub fn put_byte(out: &mut [u8], at: usize, byte: u8)
    ensures { out.new ≡ set out.old at byte }
{
    if at < out.len() {
        out[at] = byte;
    }
}

// How many digits a number has.
#[tactic(auto, using(crate::proofs::Laws::decimal_width))]
pub fn width(n: u32) -> usize
    ensures { (result ≡ length (decimal_of n)) × (result < 11) }
{
    n.max(1).ilog10() as usize + 1
}

// The digits of n from `at` on, and the place behind them.
pub fn put_decimal(out: &mut [u8], at: usize, n: u32) -> usize
    requires { at < 2 ^ 32 }
    ensures { (out.new ≡ sets out.old at (decimal_of n)) × (result ≡ at + length (decimal_of n)) }
{
    let end = at + width(n);
    let mut left = n;
    for i in (at..end).rev() {
        put_byte(out, i, b'0' + (left % 10) as u8);
        left /= 10;
    }
    end
}
