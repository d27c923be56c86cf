// What a wire can give where its inputs are known within bounds: one rule a code.
ghost use Rattle.std.specs.Prelude.{◌≡◌};
ghost use Rattle.word.specs.Word.{choose as choose_of, compare_of};
ghost use Rattle.word.specs.declared.Comparison.«TheVariants».{Lt, Ge};
ghost use Rattle.bounds.specs.Range.{exact as exact_of, full, sixteen_bits, is_single as is_single_of, has_zero as has_zero_of, hull as hull_of, sum_range, difference_range, sx_range, all_below as all_below_of, none_below as none_below_of, disjoint as disjoint_of, verdict as verdict_of, select_range, rule_of, all_single, range_of};

use super::Range;
use word::{Code, Comparison};

// The first where the test holds, else the second.
fn choose<T: Copy>(test: bool, x: T, y: T) -> T
    ensures { result ≡ choose_of test x y }
{
    if test { x } else { y }
}

// a < b as signed.
fn below(a: u32, b: u32) -> bool
    ensures { result ≡ compare_of Lt a b }
{
    word::compare(Comparison::Lt, a, b)
}

// a >= b as signed.
pub fn at_least(a: u32, b: u32) -> bool
    ensures { result ≡ compare_of Ge a b }
{
    word::compare(Comparison::Ge, a, b)
}

impl Range {
    // All words.
    const FULL: Range = Range {
        low: 0x8000_0000,
        high: 0x7fff_ffff,
    };
    // What 16 signed bits hold.
    const SIXTEEN_BITS: Range = Range {
        low: 0xffff_8000,
        high: 0x7fff,
    };

    pub fn exact(x: u32) -> Range
        ensures { result ≡ exact_of x }
    {
        Range { low: x, high: x }
    }

    fn is_single(self) -> bool
        ensures { result ≡ is_single_of self }
    {
        self.low == self.high
    }

    fn has_zero(self) -> bool
        ensures { result ≡ has_zero_of self }
    {
        at_least(0, self.low) & at_least(self.high, 0)
    }

    // The smallest range over two.
    fn hull(self, s: Range) -> Range
        ensures { result ≡ hull_of self s }
    {
        Range {
            low: choose(below(s.low, self.low), s.low, self.low),
            high: choose(below(self.high, s.high), s.high, self.high),
        }
    }

    // Every word of this range is below every word of the other.
    fn all_below(self, s: Range) -> bool
        ensures { result ≡ all_below_of self s }
    {
        below(self.high, s.low)
    }

    // No word of this range is below one of the other.
    fn none_below(self, s: Range) -> bool
        ensures { result ≡ none_below_of self s }
    {
        at_least(self.low, s.high)
    }

    // No word is in both.
    fn disjoint(self, s: Range) -> bool
        ensures { result ≡ disjoint_of self s }
    {
        self.all_below(s) | s.all_below(self)
    }
}

// From the ends, unless a sum could wrap.
fn sum(a: Range, b: Range) -> Range
    ensures { result ≡ sum_range a b }
{
    let over = word::over(Code::ADD, a.low, b.low) | word::over(Code::ADD, a.high, b.high);
    let ends = Range {
        low: a.low.wrapping_add(b.low),
        high: a.high.wrapping_add(b.high),
    };
    choose(over, Range::FULL, ends)
}

// The same of a difference. No one function for both: it takes the ends crosswise.
fn difference(a: Range, b: Range) -> Range
    ensures { result ≡ difference_range a b }
{
    let over = word::over(Code::SUB, a.low, b.high) | word::over(Code::SUB, a.high, b.low);
    let ends = Range {
        low: a.low.wrapping_sub(b.high),
        high: a.high.wrapping_sub(b.low),
    };
    choose(over, Range::FULL, ends)
}

fn sx(a: Range) -> Range
    ensures { result ≡ sx_range a }
{
    let h = Range::SIXTEEN_BITS;
    choose(below(a.low, h.low) | below(h.high, a.high), h, a)
}

// A comparison that holds of all words, of none, or of some.
fn verdict(all: bool, none: bool) -> Range
    ensures { result ≡ verdict_of all none }
{
    Range {
        low: u32::from(all),
        high: u32::from(!none),
    }
}

// b or c by the condition a.
fn select(a: Range, b: Range, c: Range) -> Range
    ensures { result ≡ select_range a b c }
{
    choose(a.has_zero(), choose(a.is_single(), c, b.hull(c)), b)
}

// The rule of a code; any word for a code that is none.
#[tactic(auto, unfolding(crate::specs::Range::rule_of))]
fn rule(code: u32, a: Range, b: Range, c: Range) -> Range
    ensures { result ≡ rule_of code a b c }
{
    match code {
        Code::SET | Code::COPY => a,
        Code::ADD => sum(a, b),
        Code::SUB => difference(a, b),
        Code::SX => sx(a),
        Code::EQ => verdict(false, a.disjoint(b)),
        Code::NE => verdict(a.disjoint(b), false),
        Code::LT => verdict(a.all_below(b), a.none_below(b)),
        Code::GE => verdict(a.none_below(b), a.all_below(b)),
        Code::LTU | Code::GEU => verdict(false, false),
        Code::SELECT => select(a, b, c),
        _ => Range::FULL,
    }
}

// Of n inputs, at least one, each is a single word.
fn all_single(n: u32, a: Range, b: Range, c: Range) -> bool
    ensures { result ≡ all_single n a b c }
{
    (1 <= n) & a.is_single() & ((n < 2) | b.is_single()) & ((n < 3) | c.is_single())
}

// What a code can give: the exact word where all its inputs are single, else what its rule says. That of code 19 gives the exact word too,
// and most wires are of that code.
#[tactic(auto, using(crate::proofs::RuleLaws::range_select), unfolding(crate::specs::Range::range_of))]
pub fn range_of(code: u32, a: Range, b: Range, c: Range) -> Range
    ensures { result ≡ range_of code a b c }
{
    if code == Code::SELECT {
        return select(a, b, c);
    }
    if all_single(word::arity(code), a, b, c) {
        return Range::exact(word::eval(0, code, a.low, b.low, c.low));
    }
    rule(code, a, b, c)
}
