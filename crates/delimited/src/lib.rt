// Fields of delimited text, ended by a comma or a line feed. A text is read from front to back: a function takes the text and where
// it stands, and hands back where the next field or line begins.
// No reader holds both: the definitions say what stands at a place of a text (`field_at`), and a contract of a reader would speak of it twice.
#![tactic(auto)]

ghost use Rattle.std.specs.Prelude.{◌≡◌, true, drop};
ghost use Rattle.delimited.specs.Number.{at_most};
ghost use Rattle.delimited.specs.Cursor.{stops, digits_at_most, field_at};

// A field's value, and where the next field or line begins.
#[derive(Clone, Copy, Debug, PartialEq, Eq)]
pub struct Field {
    pub value: u32,
    pub next: usize,
}

// The digits from `at` up to the byte `end`, of a value of at most `most`. One test tells a digit from all other bytes.
fn digits(text: &[u8], at: usize, end: u8, most: u32) -> Option<Field>
    requires { stops end ≡ true }
    ensures { result ≡ field_at (digits_at_most most 0) end at (drop at text.now) }
{
    let mut value: u32 = 0;
    // By index: what is handed back is a place in the whole text.
    for i in at..text.len() {
        let digit = text[i].wrapping_sub(b'0');
        if 9 < digit {
            let next = i + 1;
            return if text[i] == end {
                Some(Field { value, next })
            } else {
                None
            };
        }
        let longer = u64::from(value) * 10 + u64::from(digit);
        if u64::from(most) < longer {
            return None;
        }
        value = longer as u32;
    }
    None
}

// At least one digit, and no leading zero.
#[tactic(auto, using(crate::proofs::Numbers::none_at, crate::proofs::Numbers::end_at, crate::proofs::Numbers::other_at, crate::proofs::Numbers::zero_alone_at, crate::proofs::Numbers::zero_at, crate::proofs::Numbers::zero_leads_at))]
pub fn at_most(text: &[u8], at: usize, end: u8, most: u32) -> Option<Field>
    requires { stops end ≡ true }
    ensures { result ≡ field_at (at_most most) end at (drop at text.now) }
{
    let first = *text.get(at)?;
    if first == end {
        return None;
    }
    if first == b'0' {
        let next = at + 2;
        return if *text.get(at + 1)? == end {
            Some(Field { value: 0, next })
        } else {
            None
        };
    }
    digits(text, at, end, most)
}
