// Words of a machine table that is long enough: its head, its wires and the records of its states.
ghost use Rattle.std.specs.Prelude.{◌≡◌, ◌+◌, ◌<◌, ◌≤◌, ◌^◌, length};
ghost use Rattle.fsmd.specs.Layout.{machine_words, max_states, max_wires, record_offset};
ghost use Rattle.fsmd.specs.Table.{state_count, machine_register_count, wire_at, first_wire_at, wire_count_at, touch_at};

use super::{MachineTable, Wire};

// A table of enough words, admitted or not.
#[derive(Clone, Copy)]
pub struct MachineWords<'a> {
    pub words: &'a [u32],
    pub ghost whole: { machine_words ≤ length words.now },
}

impl<'a> MachineWords<'a> {
    // N and R.
    pub fn head(self) -> MachineTable
        ensures states_value { result.states ≡ state_count self.entry.words.now }
        ensures registers_value { result.registers ≡ machine_register_count self.entry.words.now }
    {
        MachineTable {
            states: self.words[MachineTable::STATE_COUNT],
            registers: self.words[MachineTable::REGISTER_COUNT],
        }
    }

    // Wire i of the whole machine.
    #[tactic(auto, unfolding(crate::specs::Table::wire_at))]
    pub fn wire(self, i: usize) -> Wire
        requires { i < max_wires }
        ensures { result ≡ wire_at self.entry.words.now i }
    {
        let at = MachineTable::WIRE_WORDS + Wire::WORDS * i;
        Wire {
            code: self.words[at],
            a: self.words[at + Wire::A],
            b: self.words[at + Wire::B],
            c: self.words[at + Wire::C],
        }
    }

    // The first wire of state k, counted from the start of the machine's wires.
    pub fn first_wire(self, k: usize) -> usize
        requires { k < max_states }
        ensures value { result ≡ first_wire_at self.entry.words.now k }
        ensures bound { result < 2 ^ 32 }
    {
        self.words[record(k)] as usize
    }

    // How many wires state k has.
    pub fn wire_count(self, k: usize) -> usize
        requires { k < max_states }
        ensures value { result ≡ wire_count_at self.entry.words.now k }
        ensures bound { result < 2 ^ 32 }
    {
        self.words[record(k) + MachineTable::WIRE_COUNT] as usize
    }

    // The touch word that stands in the record of state k.
    pub fn touch(self, k: usize) -> u32
        requires { k < max_states }
        ensures { result ≡ touch_at self.entry.words.now k }
    {
        self.words[record(k) + MachineTable::TOUCH]
    }
}

// The bound of a state's number stands in each contract: a type for such numbers would be made and taken apart at every call.
// Where the record of state k begins.
pub fn record(k: usize) -> usize
    requires { k < max_states }
    ensures { result ≡ record_offset k }
{
    MachineTable::RECORDS + MachineTable::RECORD * k
}
