// Which states touch a register: two questions about a machine table, answered from its touch words.
#![tactic(auto)]

ghost use Rattle.std.specs.Prelude.{◌≡◌, ◌<◌};
ghost use Rattle.runs.specs.Lists.{up_from, first};
ghost use Rattle.fsmd.specs.Table.{state_count};
ghost use Rattle.fsmd.specs.Touch.{bit as bit_of};
ghost use Rattle.touching.specs.Touching.{touches_at, touches_answer, first_touching_answer};

use fsmd::admission::AdmittedMachine;
use refusal::Refusal;

// Bit i of a word: a word has 32.
fn bit(word: u32, i: u32) -> bool
    ensures { result ≡ bit_of word i }
{
    if 32 <= i {
        return false;
    }
    (word >> i) % 2 == 1
}

// Whether state k touches the register, from its touch word alone.
fn touches_at(machine: AdmittedMachine, k: usize, register: u32) -> bool
    requires { k < state_count machine.table.words.now }
    ensures { result ≡ touches_at machine.entry.table.words.now register k }
{
    bit(machine.table.touch(k), register)
}

// The first state that touches the register.
fn search(machine: AdmittedMachine, register: u32) -> Option<u32>
    ensures { result ≡ first (touches_at machine.entry.table.words.now register) (up_from 0 (state_count machine.entry.table.words.now)) }
{
    let states = machine.table.head().states;
    (0..states).find(|k| touches_at(machine, *k as usize, register))
}

// Whether a state touches a register: a short table is refused, one that is not admitted, and a state that there is not.
#[tactic(auto, using(crate::proofs::Answers::touches_refused))]
pub fn touches(table: &[u32], state: u32, register: u32) -> Result<bool, Refusal>
    ensures { result ≡ touches_answer table.now state register }
{
    let machine = AdmittedMachine::admit(table)?;
    let k = state as usize;
    if machine.state_count() <= k {
        return Err(Refusal::NoStart);
    }
    Ok(touches_at(machine, k, register))
}

// The lowest-numbered state that touches a register; the table is refused as above.
#[tactic(auto, using(crate::proofs::Answers::first_refused))]
pub fn first_touching(table: &[u32], register: u32) -> Result<Option<u32>, Refusal>
    ensures { result ≡ first_touching_answer table.now register }
{
    let machine = AdmittedMachine::admit(table)?;
    Ok(search(machine, register))
}
