// The bytes of lines, written one behind another into a buffer. Past the buffer's end nothing is stored, and the place goes on.
ghost use Rattle.std.specs.Prelude.{◌≡◌, [], ◌∷◌, ◌≤◌, ◌<◌, ◌^◌, length};
ghost use Rattle.decimal.specs.Decimal.{decimal_of};
ghost use Rattle.cfg_line.specs.declared.Line.TheVariants as line;
ghost use Rattle.cfg_write.specs.Put.{Wrote, commas, numbered};
ghost use Rattle.cfg_write.specs.Write.{instruction_name, comparison_name, literal_text, operands_of, line_text, ending_line};

use cfg::{Condition, Ending, Instruction};
use decimal::{put_byte, put_decimal};
use word::{Code, Comparison};

// A buffer, and the place behind what is written.
#[derive(Drop)]
pub struct Writer<'a> {
    pub out: &'a mut [u8],
    pub at: usize,
}

// An instruction's name.
#[tactic(auto, using(crate::proofs::NameLaws::no_name), unfolding(crate::specs::Write::instruction_name, cfg_line::specs::Name::instruction_names))]
fn name_of(code: u32) -> &'static [u8]
    ensures named { result.now ≡ instruction_name code }
    ensures short { length result.now ≤ 8 }
{
    match code {
        Code::SET => b"set",
        Code::COPY => b"copy",
        Code::ADD => b"add",
        Code::SUB => b"sub",
        Code::AND => b"and",
        Code::OR => b"or",
        Code::XOR => b"xor",
        Code::SHL => b"shl",
        Code::SHR => b"shr",
        Code::SAR => b"sar",
        Code::SX => b"sx",
        Code::IN => b"in",
        _ => b"",
    }
}

#[tactic(auto, unfolding(crate::specs::Write::comparison_name, cfg_line::specs::Name::comparison_names))]
fn comparison_of(comparison: Comparison) -> &'static [u8]
    ensures named { result.now ≡ comparison_name comparison }
    ensures short { length result.now ≤ 8 }
{
    match comparison {
        Comparison::Eq => b"eq",
        Comparison::Ne => b"ne",
        Comparison::Lt => b"lt",
        Comparison::Ge => b"ge",
        Comparison::Ltu => b"ltu",
        Comparison::Geu => b"geu",
    }
}

// How far the place may be stands in each contract and in no invariant: every byte moves it.
impl<'a> Writer<'a> {
    pub fn new(out: &'a mut [u8]) -> Writer<'a>
        ensures same_buffer { result.out.ghost_name ≡ out.entry.ghost_name }
        ensures from_front { (result.out.now ≡ out.old) × (result.at ≡ 0) }
    {
        Writer { out, at: 0 }
    }

    fn byte(&mut self, byte: u8)
        requires { self.old.at < 2 ^ 21 }
        ensures { Wrote 1 self.old self.new (byte ∷ []) }
    {
        put_byte(self.out, self.at, byte);
        self.at += 1;
    }

    pub fn decimal(&mut self, n: u32)
        requires { self.old.at < 2 ^ 21 }
        ensures { Wrote 10 self.old self.new (decimal_of n) }
    {
        self.at = put_decimal(self.out, self.at, n);
    }

    // A name's few bytes.
    pub fn bytes(&mut self, bytes: &[u8])
        requires { (self.old.at < 2 ^ 20) × (length bytes.now ≤ 8) }
        ensures { Wrote 8 self.old self.new bytes.now }
    {
        for byte in bytes {
            self.byte(*byte);
        }
    }

    pub fn line_feed(&mut self)
        requires { self.old.at < 2 ^ 20 }
        ensures { Wrote 1 self.old self.new (10 ∷ []) }
    {
        self.byte(b'\n');
    }

    // A comma and a number.
    pub fn number(&mut self, n: u32)
        requires { self.old.at < 2 ^ 20 }
        ensures { Wrote 11 self.old self.new (44 ∷ decimal_of n) }
    {
        self.byte(b',');
        self.decimal(n);
    }

    // A comma and a literal, given by its word.
    fn literal(&mut self, word: u32)
        requires { self.old.at < 2 ^ 20 }
        ensures { Wrote 12 self.old self.new (44 ∷ literal_text word) }
    {
        if word < 0x8000_0000 {
            self.number(word);
        } else {
            self.byte(b',');
            self.byte(b'-');
            self.decimal(word.wrapping_neg());
        }
    }

    // An instruction's fields behind name and d.
    fn operands(&mut self, i: Instruction)
        requires { self.old.at < 2 ^ 19 }
        ensures { Wrote 22 self.old self.new (commas (operands_of i)) }
    {
        if i.code == Code::SET {
            self.literal(i.a);
            return;
        }
        // How many operands the code reads: a count, and no kind.
        match word::arity(i.code) {
            0 => {}
            1 => self.number(i.a),
            _ => {
                self.number(i.a);
                self.number(i.b);
            }
        }
    }

    pub(crate) fn instruction(&mut self, i: Instruction)
        requires { self.old.at < 2 ^ 18 }
        ensures { Wrote 64 self.old self.new (line_text (line.Instruction i)) }
    {
        self.bytes(name_of(i.code));
        self.number(i.d);
        self.operands(i);
        self.line_feed();
    }

    fn ite(&mut self, c: Condition, t: u32, f: u32)
        requires { self.old.at < 2 ^ 18 }
        ensures { Wrote 64 self.old self.new (line_text (line.Ite c t f)) }
    {
        self.bytes(b"ite,");
        self.bytes(comparison_of(c.comparison));
        self.number(c.a);
        self.number(c.b);
        self.number(t);
        self.number(f);
        self.line_feed();
    }

    // A name, one number and a line feed.
    pub(crate) fn numbered(&mut self, name: &[u8], n: u32)
        requires { (self.old.at < 2 ^ 18) × (length name.now ≤ 8) }
        ensures { Wrote 64 self.old self.new (numbered name.now n) }
    {
        self.bytes(name);
        self.number(n);
        self.line_feed();
    }

    pub(crate) fn ending(&mut self, e: Ending)
        requires { self.old.at < 2 ^ 18 }
        ensures { Wrote 64 self.old self.new (line_text (ending_line e)) }
    {
        match e {
            Ending::Goto(t) => self.numbered(b"goto", t),
            Ending::Ite(c, t, f) => self.ite(c, t, f),
            Ending::Halt => self.bytes(b"halt\n"),
        }
    }

    pub(crate) fn graph_line(&mut self, blocks: u32, registers: u32)
        requires { self.old.at < 2 ^ 18 }
        ensures { Wrote 64 self.old self.new (line_text (line.Graph blocks registers)) }
    {
        self.bytes(b"graph");
        self.number(blocks);
        self.number(registers);
        self.line_feed();
    }
}
