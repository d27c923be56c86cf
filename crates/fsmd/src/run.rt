// A run with a budget: refusals first, then cycles until the machine halts, its words or its budget are used up.
ghost use Rattle.std.specs.Prelude.{◌≡◌, true, ◌++◌, ◌<◌, ◌≤◌, length, take, drop};
ghost use Rattle.runs.specs.Runs.{start_at, up_to, answer, registers_after, total};
ghost use Rattle.fsmd.specs.Layout.{max_registers, room_words};
ghost use Rattle.fsmd.specs.Clock.{Roomy, fits_small};
ghost use Rattle.fsmd.specs.Machine.{machine_runner, blocks_run};
ghost use Rattle.fsmd.specs.Table.{state_count, machine_of, admitted_machine};
ghost use Rattle.fsmd.specs.Run.{machine_run, machine_registers, machine_words_run, machine_words_registers};

use super::MachineTable;
use super::admission::AdmittedMachine;
use super::chains::chains_of;
use super::clock::cycle;
use super::room::Room;
use refusal::Refusal;
use runs::RunEnd;
use word::Registers;

// How a run of a machine ends, and how many blocks its cycles arrived at.
#[derive(Clone, Copy, Debug, PartialEq, Eq)]
pub struct MachineRun {
    pub end: RunEnd,
    pub blocks: u64,
}

// What the cycles of a run leave: the registers, and how the run ends.
#[derive(Clone, Copy)]
pub struct Ran {
    pub registers: Registers,
    pub run: MachineRun,
}

// The cycles of an admitted machine from a state that it has, on the words of a list for the first `limit` arrivals. Each cycle is an
// arrival, and the limit is within the budget, so that the loop tests one bound. The limit stands before the words and the room so that
// it comes in a register. What the room holds before is all one.
// Seven parameters and no struct: the clauses set each of them into `answer`, and would take a struct apart again.
pub fn run<const N: usize>(
    machine: AdmittedMachine,
    registers: Registers,
    start: u32,
    budget: u32,
    limit: u32,
    words: &[u32],
    room: &mut Room<N>,
) -> Ran
    requires start_bound { start < state_count machine.table.words.now }
    requires limit_le_budget { limit ≤ budget }
    requires roomy { Roomy machine.table.words.now N }
    ensures end_value { result.run.end ≡ answer (machine_runner (machine_of machine.entry.table.words.now)) (up_to limit words.now) budget (start_at start registers.words) }
    ensures registers_value { result.registers.words ≡ registers_after (machine_runner (machine_of machine.entry.table.words.now)) (up_to limit words.now) budget (start_at start registers.words) }
    ensures blocks_value { result.run.blocks ≡ total (machine_runner (machine_of machine.entry.table.words.now)) (up_to limit words.now) (blocks_run (machine_of machine.entry.table.words.now)) budget (start_at start registers.words) }
{
    let states = machine.table.head().states;
    let chains = chains_of(machine.table);
    runs::store(&mut room.words, registers);
    let mut file = registers;
    let mut state = start;
    let mut flag = false;
    let mut blocks: u64 = 0;
    for count in 0..limit {
        let sampled = runs::sampled(words, count);
        let next = cycle(room, machine.table, &chains, state as usize, file, sampled);
        file = next.registers;
        state = next.state;
        flag |= next.over;
        blocks += next.blocks;
        if states <= state {
            return Ran {
                registers: file,
                run: MachineRun {
                    end: RunEnd::Halted(count + 1, flag),
                    blocks,
                },
            };
        }
    }
    // No word is left, or no budget: where both are used up the run is spent.
    let end = if limit < budget {
        RunEnd::Dry(limit, state, flag)
    } else {
        RunEnd::Spent(limit, state, flag)
    };
    Ran {
        registers: file,
        run: MachineRun { end, blocks },
    }
}

// A run in a room that is made here: of two rooms in one function both are cleared, whichever is used.
// Six parameters and no struct, as above.
fn run_in_room<const N: usize>(
    machine: AdmittedMachine,
    registers: Registers,
    start: u32,
    budget: u32,
    limit: u32,
    words: &[u32],
) -> Ran
    requires start_bound { start < state_count machine.table.words.now }
    requires limit_le_budget { limit ≤ budget }
    requires registers_fit { max_registers ≤ N }
    requires few_words { N ≤ room_words }
    requires roomy { Roomy machine.table.words.now N }
    ensures end_value { result.run.end ≡ answer (machine_runner (machine_of machine.entry.table.words.now)) (up_to limit words.now) budget (start_at start registers.words) }
    ensures registers_value { result.registers.words ≡ registers_after (machine_runner (machine_of machine.entry.table.words.now)) (up_to limit words.now) budget (start_at start registers.words) }
    ensures blocks_value { result.run.blocks ≡ total (machine_runner (machine_of machine.entry.table.words.now)) (up_to limit words.now) (blocks_run (machine_of machine.entry.table.words.now)) budget (start_at start registers.words) }
{
    let mut room = Room::<N>::of(registers);
    run(machine, registers, start, budget, limit, words, &mut room)
}

// Whether the small room has space for the registers and the wires of every state.
fn fits_small(machine: AdmittedMachine) -> bool
    ensures { result ≡ fits_small machine.entry.table.words.now }
{
    (0..machine.state_count()).all(|k| {
        MachineTable::REGISTERS + machine.table.wire_count(k) <= MachineTable::SMALL_ROOM
    })
}

// A run on the registers of a buffer; its words from 16 up stay. The small room is taken where it has space: to clear the other takes
// longer than a short run.
// Six parameters and no struct: the clauses set each of them into `answer`, and would take a struct apart again.
fn run_from(
    machine: AdmittedMachine,
    registers: &mut [u32],
    start: u32,
    budget: u32,
    limit: u32,
    words: &[u32],
) -> MachineRun
    requires start_bound { start < state_count machine.table.words.now }
    requires limit_le_budget { limit ≤ budget }
    requires max_registers_in_bounds { max_registers ≤ length registers.old }
    ensures end_value { result.end ≡ answer (machine_runner (machine_of machine.entry.table.words.now)) (up_to limit words.now) budget (start_at start (take max_registers registers.old)) }
    ensures registers_after { registers.new ≡ registers_after (machine_runner (machine_of machine.entry.table.words.now)) (up_to limit words.now) budget (start_at start (take max_registers registers.old)) ++ drop max_registers registers.old }
    ensures blocks_value { result.blocks ≡ total (machine_runner (machine_of machine.entry.table.words.now)) (up_to limit words.now) (blocks_run (machine_of machine.entry.table.words.now)) budget (start_at start (take max_registers registers.old)) }
{
    let file = runs::load(registers);
    let ran = if fits_small(machine) {
        run_in_room::<{ MachineTable::SMALL_ROOM }>(machine, file, start, budget, limit, words)
    } else {
        run_in_room::<{ MachineTable::ROOM }>(machine, file, start, budget, limit, words)
    };
    runs::store(registers, ran.registers);
    ran.run
}

// Two operations, as C has them; what they share is `run_from`.
// "Run machine": how it ends, and the registers left in the first sixteen words of the buffer. Every arrival has a word, which nothing reads.
// The refusals: a short buffer or table, a table that is not admitted, a machine that reads words, no such start.
pub fn run_machine(
    table: &[u32],
    registers: &mut [u32],
    start: u32,
    budget: u32,
) -> Result<MachineRun, Refusal>
    ensures run_value { result ≡ machine_run table.now registers.old start budget }
    ensures registers_after { registers.new ≡ machine_registers table.now registers.old start budget }
{
    if registers.len() < MachineTable::REGISTERS {
        return Err(Refusal::ShortBuffer);
    }
    let machine = AdmittedMachine::admit(table)?;
    if !machine.is_wordless() {
        return Err(Refusal::NoWords);
    }
    if machine.table.head().states <= start {
        return Err(Refusal::NoStart);
    }
    Ok(run_from(machine, registers, start, budget, budget, &[]))
}

// "Run machine" with words.
pub fn run_machine_with_words(
    table: &[u32],
    registers: &mut [u32],
    start: u32,
    budget: u32,
    words: &[u32],
) -> Result<MachineRun, Refusal>
    ensures run_value { result ≡ machine_words_run table.now registers.old start budget words.now }
    ensures registers_after { registers.new ≡ machine_words_registers table.now registers.old start budget words.now }
{
    if registers.len() < MachineTable::REGISTERS {
        return Err(Refusal::ShortBuffer);
    }
    let machine = AdmittedMachine::admit(table)?;
    if machine.table.head().states <= start {
        return Err(Refusal::NoStart);
    }
    let limit = runs::lasting(words, budget);
    Ok(run_from(machine, registers, start, budget, limit, words))
}
