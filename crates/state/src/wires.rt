// The wires of a state in the making.
ghost use Rattle.std.specs.Prelude.{◌≡◌, ◌≤◌};
ghost use Rattle.fsmd.specs.Layout.{max_registers};
ghost use Rattle.state.specs.Wires.{wire as wire_of};

use fsmd::{MachineTable, Wire};

// The wires of a state so far, from the front of some words; each of its blocks has so many registers.
// Words and a count, and no list of wires: they are written where they stay, in the machine table that C lends.
#[derive(Drop)]
pub struct WireList<'a> {
    pub words: &'a mut [u32],
    pub count: usize,
    pub registers: usize,
    ghost few: { registers ≤ max_registers },
}

// A wire of these words.
#[inline]
pub fn wire(code: u32, a: u32, b: u32, c: u32) -> Wire
    ensures { result ≡ wire_of code a b c }
{
    Wire { code, a, b, c }
}

// `Room` for what comes stands in each contract and in no invariant: every wire takes some of it.
impl<'a> WireList<'a> {
    ghost use Rattle.std.specs.Prelude.{◌≡◌, [], ◌∷◌, ◌+◌};
    ghost use Rattle.fsmd.specs.Layout.{max_registers};
    ghost use Rattle.state.specs.Making.{Room};
    ghost use Rattle.state.specs.Steps.{Adds};

    // One more wire; its reference.
    #[inline]
    pub fn emit(&mut self, w: Wire) -> u32
        requires { Room (self.old.count + 1) self.old.words.now }
        ensures added { Adds (w ∷ []) self.old self.new }
        ensures reference { result ≡ max_registers + self.old.count }
    {
        let start = Wire::WORDS * self.count;
        self.words[start..start + Wire::WORDS].copy_from_slice(&[w.code, w.a, w.b, w.c]);
        let reference = MachineTable::REGISTERS + self.count;
        self.count += 1;
        reference as u32
    }
}
