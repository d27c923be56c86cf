// "Registers known within bounds": the refusals, then one cycle over ranges.
// Two buffers of words and not one of ranges: C lends them (gutkavu_bounds).
ghost use Rattle.std.specs.Prelude.{◌≡◌, ◌≤◌, length, MatchResult};
ghost use Rattle.bounds.specs.Operation.{ordered, bounds_answer, lowest_left, highest_left};

use super::cycle::bound_cycle;
use super::rules::at_least;
use fsmd::MachineTable;
use fsmd::admission::AdmittedMachine;
use refusal::Refusal;

// Of the first registers, each has a lowest that is not above the highest.
fn is_ordered(lowest: &[u32], highest: &[u32], count: usize) -> bool
    requires lowest { count ≤ length lowest.now }
    requires highest { count ≤ length highest.now }
    ensures { result ≡ ordered count lowest.now highest.now }
{
    lowest[..count]
        .iter()
        .zip(&highest[..count])
        .all(|(low, high)| at_least(*high, *low))
}

// The table as an admitted one, where nothing is refused.
#[tactic(auto, using(crate::proofs::Answers::short_lowest, crate::proofs::Answers::short_highest, crate::proofs::Answers::bad_table))]
fn check<'a>(
    table: &'a [u32],
    lowest: &[u32],
    highest: &[u32],
    state: u32,
) -> Result<AdmittedMachine<'a>, Refusal>
    ensures { MatchResult result (λ machine. (machine.table.words.now ≡ table.now) × (bounds_answer table.now lowest.now highest.now state ≡ Ok tt)) (λ refusal. bounds_answer table.now lowest.now highest.now state ≡ Err refusal) }
{
    if lowest.len() < MachineTable::REGISTERS {
        return Err(Refusal::ShortBuffer);
    }
    if highest.len() < MachineTable::REGISTERS {
        return Err(Refusal::ShortBuffer);
    }
    let machine = AdmittedMachine::admit(table)?;
    if machine.state_count() <= state as usize {
        return Err(Refusal::NoStart);
    }
    if !is_ordered(lowest, highest, machine.register_count()) {
        return Err(Refusal::CrossedBounds);
    }
    Ok(machine)
}

// What one cycle of a state can do: the lowest and highest next words, in place of the lowest and highest words before it.
// Two buffers of words and not one of ranges: C lends them (gutkavu_bounds).
pub fn bounds(
    table: &[u32],
    lowest: &mut [u32],
    highest: &mut [u32],
    state: u32,
) -> Result<(), Refusal>
    ensures value { result ≡ bounds_answer table.now lowest.old highest.old state }
    ensures lowest_after { lowest.new ≡ lowest_left table.now lowest.old highest.old state }
    ensures highest_after { highest.new ≡ highest_left table.now lowest.old highest.old state }
{
    let machine = check(table, lowest, highest, state)?;
    bound_cycle(machine.table, state as usize, lowest, highest);
    Ok(())
}
