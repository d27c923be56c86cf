// Whether a machine reads the word sampled at the start of a cycle.
ghost use Rattle.std.specs.Prelude.{◌≡◌, not, map, ◌+◌, ◌<◌, ◌≤◌, eqb};
ghost use Rattle.word.specs.Word.{in_code};
ghost use Rattle.runs.specs.Lists.{every, up_from};
ghost use Rattle.fsmd.specs.Layout.{max_wires};
ghost use Rattle.fsmd.specs.Machine.{wordless_machine};
ghost use Rattle.fsmd.specs.Table.{state_count, wire_at, state_at, machine_of};

use super::admission::AdmittedMachine;
use super::table::MachineWords;
use word::Code;

// First wire and count, two words of a state's record, are handed on as they stand.
// None of these wires reads the sampled word.
fn wires_wordless(table: MachineWords, first: usize, count: usize) -> bool
    requires { first + count ≤ max_wires }
    ensures { result ≡ every (λ w. not (eqb w.code in_code)) (map (wire_at table.entry.words.now) (up_from first count)) }
{
    (0..count).all(|n| table.wire(first + n).code != Code::IN)
}

// No wire of state k does.
fn state_wordless(machine: AdmittedMachine, k: usize) -> bool
    requires { k < state_count machine.table.words.now }
    ensures { result ≡ every (λ w. not (eqb w.code in_code)) (state_at machine.entry.table.words.now k).wires }
{
    wires_wordless(
        machine.table,
        machine.table.first_wire(k),
        machine.table.wire_count(k),
    )
}

impl AdmittedMachine<'_> {
    // No wire of any state does.
    pub fn is_wordless(self) -> bool
        ensures { result ≡ wordless_machine (machine_of self.entry.table.words.now) }
    {
        let states = self.state_count();
        (0..states).all(|k| state_wordless(self, k))
    }
}
