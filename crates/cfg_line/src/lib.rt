// One line of a graph's text: its form. A text is read from front to back, each byte once: a function takes the text and
// where it stands, and hands back where the next field or line begins. No reader holds both: a contract of where a value
// stands is shorter than one of a reader before and after, and the steps read alike.
#![tactic(auto)]

ghost use Rattle.std.specs.Prelude.{◌≡◌, true, List, ℕ, ◌^◌, drop, option_map, Some};
ghost use Rattle.word.specs.Word.{comparison_at};
ghost use Rattle.runs.specs.Lists.{every};
ghost use Rattle.delimited.specs.Cursor.{stops, field_at};
ghost use Rattle.cfg_line.specs.Number.{small_number, literal_of};
ghost use Rattle.cfg_line.specs.Name.{comparison_of, keyword_of};
ghost use Rattle.cfg_line.specs.Form.{form_of, by_name, instruction};
ghost use Rattle.cfg_line.specs.Cursor.{byte, packed, name_at, comparing_at, parsed, parsed_at};

use cfg::{Condition, GraphTable, Instruction};
use delimited::Field;
use word::{Code, Comparison};

#[derive(Clone, Copy, Debug, PartialEq, Eq)]
pub enum Line {
    // B and R.
    Graph(u32, u32),
    // The block's number.
    Block(u32),
    Instruction(Instruction),
    // The target.
    Goto(u32),
    // The target where the condition holds, and where it does not.
    Ite(Condition, u32, u32),
    Halt,
}

// A line's form, and where the next line begins.
#[derive(Clone, Copy, Debug, PartialEq, Eq)]
pub struct Parsed {
    pub line: Line,
    pub next: usize,
}

// What a line's first field names.
#[derive(Clone, Copy, Debug, PartialEq, Eq)]
pub enum Keyword {
    Graph,
    Block,
    Goto,
    Ite,
    Halt,
    Set,
    In,
    // Instructions of one operand and of two, by their code.
    Unary(u32),
    Binary(u32),
}

// A field's bytes as a number, where the next field or line begins, and the byte between.
#[derive(Clone, Copy, Debug, PartialEq, Eq)]
struct Name {
    key: u64,
    next: usize,
    stop: u8,
}

// A comparison, and where the next field begins.
#[derive(Clone, Copy, Debug, PartialEq, Eq)]
struct Comparing {
    comparison: Comparison,
    next: usize,
}

// 0 to 255.
fn number(text: &[u8], at: usize, end: u8) -> Option<Field>
    requires { stops end ≡ true }
    ensures { result ≡ field_at small_number end at (drop at text.now) }
{
    delimited::at_most(text, at, end, 255)
}

// -2147483648 to 2147483647, as a word.
#[tactic(auto, using(crate::proofs::Literals::none_at, crate::proofs::Literals::plain_at, crate::proofs::Literals::minus_none, crate::proofs::Literals::minus_zero, crate::proofs::Literals::minus_some))]
fn literal(text: &[u8], at: usize, end: u8) -> Option<Field>
    requires { stops end ≡ true }
    ensures { result ≡ field_at literal_of end at (drop at text.now) }
{
    if *text.get(at)? != b'-' {
        return delimited::at_most(text, at, end, 0x7fff_ffff);
    }
    let field = delimited::at_most(text, at + 1, end, 0x8000_0000)?;
    if field.value == 0 {
        return None;
    }
    Some(Field {
        value: field.value.wrapping_neg(),
        next: field.next,
    })
}

// A one and the bytes up to a comma or line feed, as digits to base 256; five bytes at most.
fn name_at(text: &[u8], at: usize) -> Option<Name>
    ensures { result ≡ name_at at (drop at text.now) }
{
    let mut key: u64 = 1;
    // By index: what is handed back is a place in the whole text.
    for i in at..text.len() {
        let stop = text[i];
        if stop == b',' || stop == b'\n' {
            let next = i + 1;
            return Some(Name { key, next, stop });
        }
        if 0x100_0000_0000 <= key {
            return None;
        }
        key = key * 256 + u64::from(stop);
    }
    None
}

// Of a packed name. A match of the name's bytes, as `b"graph" => ..`, took 1.8 times as long.
#[tactic(auto, using(crate::proofs::Packing::keyword_is))]
fn keyword_of(key: u64) -> Option<Keyword>
    ensures { (f : List ℕ) → every byte f ≡ true → key ≡ packed 1 f → result ≡ keyword_of f }
{
    match key {
        0x1_6772617068 => Some(Keyword::Graph), // graph
        0x1_626c6f636b => Some(Keyword::Block), // block
        0x1_676f746f => Some(Keyword::Goto), // goto
        0x1_697465 => Some(Keyword::Ite), // ite
        0x1_68616c74 => Some(Keyword::Halt), // halt
        0x1_736574 => Some(Keyword::Set), // set
        0x1_636f7079 => Some(Keyword::Unary(Code::COPY)), // copy
        0x1_616464 => Some(Keyword::Binary(Code::ADD)), // add
        0x1_737562 => Some(Keyword::Binary(Code::SUB)), // sub
        0x1_616e64 => Some(Keyword::Binary(Code::AND)), // and
        0x1_6f72 => Some(Keyword::Binary(Code::OR)), // or
        0x1_786f72 => Some(Keyword::Binary(Code::XOR)), // xor
        0x1_73686c => Some(Keyword::Binary(Code::SHL)), // shl
        0x1_736872 => Some(Keyword::Binary(Code::SHR)), // shr
        0x1_736172 => Some(Keyword::Binary(Code::SAR)), // sar
        0x1_7378 => Some(Keyword::Unary(Code::SX)), // sx
        0x1_696e => Some(Keyword::In), // in
        _ => None,
    }
}

// Of a packed name, as above.
#[tactic(auto, using(crate::proofs::Packing::comparison_is))]
fn comparison_of(key: u64) -> Option<Comparison>
    ensures { (f : List ℕ) → every byte f ≡ true → key ≡ packed 1 f → result ≡ option_map comparison_at (comparison_of f) }
{
    match key {
        0x1_6571 => Some(Comparison::Eq), // eq
        0x1_6e65 => Some(Comparison::Ne), // ne
        0x1_6c74 => Some(Comparison::Lt), // lt
        0x1_6765 => Some(Comparison::Ge), // ge
        0x1_6c7475 => Some(Comparison::Ltu), // ltu
        0x1_676575 => Some(Comparison::Geu), // geu
        _ => None,
    }
}

// A comparison's name, with a comma behind it.
fn comparison(text: &[u8], at: usize) -> Option<Comparing>
    ensures { result ≡ comparing_at at (drop at text.now) }
{
    let name = name_at(text, at)?;
    if name.stop != b',' {
        return None;
    }
    let comparison = comparison_of(name.key)?;
    Some(Comparing {
        comparison,
        next: name.next,
    })
}

#[tactic(auto, using(crate::proofs::Lines::graph_is))]
fn graph_form(text: &[u8], at: usize) -> Option<Parsed>
    ensures { result ≡ parsed_at (form_of Keyword.Graph) at (drop at text.now) }
{
    let b = number(text, at, b',')?;
    let r = number(text, b.next, b'\n')?;
    if b.value < 1 || GraphTable::BLOCKS < b.value as usize {
        return None;
    }
    if r.value < 1 || GraphTable::REGISTERS < r.value as usize {
        return None;
    }
    Some(Parsed {
        line: Line::Graph(b.value, r.value),
        next: r.next,
    })
}

#[tactic(auto, using(crate::proofs::Lines::ite_is))]
fn ite_form(text: &[u8], at: usize) -> Option<Parsed>
    ensures { result ≡ parsed_at (form_of Keyword.Ite) at (drop at text.now) }
{
    let c = comparison(text, at)?;
    let a = number(text, c.next, b',')?;
    let b = number(text, a.next, b',')?;
    let t = number(text, b.next, b',')?;
    let f = number(text, t.next, b'\n')?;
    let condition = Condition {
        comparison: c.comparison,
        a: a.value,
        b: b.value,
    };
    Some(Parsed {
        line: Line::Ite(condition, t.value, f.value),
        next: f.next,
    })
}

// An instruction of these words, and where the next line begins.
fn instruction(code: u32, d: u32, a: u32, b: u32, next: usize) -> Parsed
    ensures { Some result ≡ parsed (Some (instruction code d a b)) next }
{
    Parsed {
        line: Line::Instruction(Instruction { code, d, a, b }),
        next,
    }
}

// The forms of several fields stand each by itself: they differ in how many there are and of which kind.
#[tactic(auto, using(crate::proofs::Lines::set_is))]
fn set_form(text: &[u8], at: usize) -> Option<Parsed>
    ensures { result ≡ parsed_at (form_of Keyword.Set) at (drop at text.now) }
{
    let d = number(text, at, b',')?;
    let a = literal(text, d.next, b'\n')?;
    Some(instruction(Code::SET, d.value, a.value, 0, a.next))
}

#[tactic(auto, using(crate::proofs::Lines::unary_is))]
fn unary_form(code: u32, text: &[u8], at: usize) -> Option<Parsed>
    ensures { result ≡ parsed_at (form_of (Keyword.Unary code)) at (drop at text.now) }
{
    let d = number(text, at, b',')?;
    let a = number(text, d.next, b'\n')?;
    Some(instruction(code, d.value, a.value, 0, a.next))
}

#[tactic(auto, using(crate::proofs::Lines::binary_is))]
fn binary_form(code: u32, text: &[u8], at: usize) -> Option<Parsed>
    ensures { result ≡ parsed_at (form_of (Keyword.Binary code)) at (drop at text.now) }
{
    let d = number(text, at, b',')?;
    let a = number(text, d.next, b',')?;
    let b = number(text, a.next, b'\n')?;
    Some(instruction(code, d.value, a.value, b.value, b.next))
}

// By what the first field names; the second begins at `at`. A halt has none.
#[tactic(auto, using(crate::proofs::Lines::block_is, crate::proofs::Lines::goto_is, crate::proofs::Lines::in_is, crate::proofs::Lines::halt_is))]
fn form(word: Keyword, text: &[u8], at: usize) -> Option<Parsed>
    ensures { result ≡ parsed_at (form_of word) at (drop at text.now) }
{
    match word {
        Keyword::Graph => graph_form(text, at),
        Keyword::Block => number(text, at, b'\n').map(|n| Parsed {
            line: Line::Block(n.value),
            next: n.next,
        }),
        Keyword::Goto => number(text, at, b'\n').map(|t| Parsed {
            line: Line::Goto(t.value),
            next: t.next,
        }),
        Keyword::Ite => ite_form(text, at),
        Keyword::Halt => None,
        Keyword::Set => set_form(text, at),
        Keyword::In => {
            let d = number(text, at, b'\n')?;
            Some(instruction(Code::IN, d.value, 0, 0, d.next))
        }
        Keyword::Unary(code) => unary_form(code, text, at),
        Keyword::Binary(code) => binary_form(code, text, at),
    }
}

// The line that begins at `at`. A halt has its name alone, every other form has more fields.
pub fn parse_line(text: &[u8], at: usize) -> Option<Parsed>
    ensures { result ≡ parsed_at by_name at (drop at text.now) }
{
    let name = name_at(text, at)?;
    let word = keyword_of(name.key)?;
    if name.stop == b',' {
        return form(word, text, name.next);
    }
    match word {
        Keyword::Halt => Some(Parsed {
            line: Line::Halt,
            next: name.next,
        }),
        _ => None,
    }
}
