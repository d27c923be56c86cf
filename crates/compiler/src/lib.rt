// The eleven operations, on buffers that the caller lends. Each contract says the whole of what an operation does, on all inputs: its
// answer, and what every buffer holds at the end. A refused operation leaves its buffers as they were.
#![tactic(auto)]

pub mod fields; // fields.rt: the numbers and values of an answer

ghost use Rattle.std.specs.Prelude.{◌≡◌, List, [], ℕ, ◌≤◌, length, take};
ghost use Rattle.runs.specs.Runs.{start_at, listed, unread};
ghost use Rattle.runs.specs.Operations.{RunValues};
ghost use Rattle.cfg.specs.Layout.{max_registers, graph_words};
ghost use Rattle.cfg.specs.Graph.{graph_runner};
ghost use Rattle.cfg.specs.Table.{graph_of};
ghost use Rattle.capture.specs.Capture.{compare_captures};
ghost use Rattle.capture.specs.Meaning.{Means};
ghost use Rattle.cfg_text.specs.Read.{read_answer, read_words};
ghost use Rattle.cfg_write.specs.Write.{write_answer, write_bytes};
ghost use Rattle.cfg_write.specs.RoundTrip.{WrittenAgain, ReadAgain};
ghost use Rattle.synthesis.specs.Synthesis.{synthesis_answer, synthesis_words};
ghost use Rattle.agreement.specs.Agreement.{Agreement};
ghost use Rattle.cfg.specs.Run.{graph_refusal, graph_words_refusal, graph_answer, graph_registers, graph_words_answer, graph_words_registers};
ghost use Rattle.fsmd.specs.Machine.{machine_runner};
ghost use Rattle.fsmd.specs.Table.{machine_of};
ghost use Rattle.fsmd.specs.Run.{machine_refusal, machine_words_refusal, machine_answer, machine_registers, machine_blocks, machine_run, machine_words_answer, machine_words_registers, machine_words_blocks, machine_words_run};
ghost use Rattle.touching.specs.Touching.{touches_answer, first_touching_answer};
ghost use Rattle.touching.specs.Values.{TouchesValues, FirstTouchingValues};
ghost use Rattle.bounds.specs.Operation.{bounds_answer, lowest_left, highest_left};
ghost use Rattle.bounds.specs.Values.{BoundsValues};
ghost use Rattle.bounds.specs.Sound.{CyclesStayInside, NotCrossed};
ghost use Rattle.compiler.specs.Answers.{end_of, blocks_of, ReadValues, WriteValues, SynthesisValues, CaptureValues};

use capture::{CaptureError, Comparison};
use cfg_text::ReadError;
use cfg_write::WriteError;
use fsmd::run::MachineRun;
use refusal::Refusal;
use runs::RunEnd;

// "Read text into graph table". Where it succeeds, writing the table gives back the text: demand 2.
pub fn read_text(text: &[u8], table: &mut [u32]) -> Result<(), ReadError>
    ensures value { result ≡ read_answer text.now table.old }
    ensures table_after { table.new ≡ read_words text.now table.old }
    ensures read_values { ReadValues text.now table.old result }
    ensures written_again { result ≡ Ok tt → (out : List ℕ) → length text.now ≤ length out → WrittenAgain text.now table.new out }
{
    cfg_text::read_text(text, table)
}

// "Write graph table as text". Where it succeeds, reading the text gives back the table: demand 2.
pub fn write_text(table: &[u32], out: &mut [u8]) -> Result<u32, WriteError>
    ensures value { result ≡ write_answer table.now out.old }
    ensures out_after { out.new ≡ write_bytes table.now out.old }
    ensures write_values { WriteValues table.now out.old result }
    ensures read_again { (n : ℕ) → result ≡ Ok n → (again : List ℕ) → graph_words ≤ length again → ReadAgain table.now again (take n out.new) }
{
    cfg_write::write_text(table, out)
}

// "Synthesise graph table into machine table". Where it succeeds, graph and machine agree on whole runs, on equal words: demand 3.
pub fn synthesise(graph: &[u32], machine: &mut [u32]) -> Result<(), Refusal>
    ensures value { result ≡ synthesis_answer graph.now machine.old }
    ensures machine_after { machine.new ≡ synthesis_words graph.now machine.old }
    ensures synthesis_values { SynthesisValues graph.now machine.old result }
    ensures agreement { result ≡ Ok tt → Agreement graph.now machine.new }
{
    synthesis::table::synthesise(graph, machine)
}

// "Run graph": so many blocks from a start block on.
pub fn run_graph(
    graph: &[u32],
    registers: &mut [u32],
    start: u32,
    budget: u32,
) -> Result<RunEnd, Refusal>
    ensures value { result ≡ graph_answer graph.now registers.old start budget }
    ensures registers_after { registers.new ≡ graph_registers graph.now registers.old start budget }
    ensures run_values { RunValues (graph_refusal graph.now registers.old start) (graph_runner (graph_of graph.now) []) unread budget (start_at start (take max_registers registers.old)) result }
{
    cfg::run::run_graph(graph, registers, start, budget)
}

// "Run machine": so many cycles from a start state on, and how many blocks they arrive at.
#[tactic(auto, using(crate::proofs::Runs::end_is, crate::proofs::Runs::blocks_are))]
pub fn run_machine(
    machine: &[u32],
    registers: &mut [u32],
    start: u32,
    budget: u32,
) -> Result<MachineRun, Refusal>
    ensures value { result ≡ machine_run machine.now registers.old start budget }
    ensures run_value { end_of result ≡ machine_answer machine.now registers.old start budget }
    ensures registers_after { registers.new ≡ machine_registers machine.now registers.old start budget }
    ensures blocks_value { blocks_of result ≡ machine_blocks machine.now registers.old start budget }
    ensures run_values { RunValues (machine_refusal machine.now registers.old start) (machine_runner (machine_of machine.now)) unread budget (start_at start (take max_registers registers.old)) (end_of result) }
{
    fsmd::run::run_machine(machine, registers, start, budget)
}

// "Run graph" with words: the start is arrival 0, each coming to a starter the next one, and arrival k uses word k.
// Six parameters and not a struct: the C function `gutkavu_run_graph_with_words` has each, and this one's clauses name them.
pub fn run_graph_with_words(
    graph: &[u32],
    registers: &mut [u32],
    start: u32,
    budget: u32,
    words: &[u32],
    starters: &[u32],
) -> Result<RunEnd, Refusal>
    ensures value { result ≡ graph_words_answer graph.now registers.old start budget words.now starters.now }
    ensures registers_after { registers.new ≡ graph_words_registers graph.now registers.old start budget words.now starters.now }
    ensures run_values { RunValues (graph_words_refusal graph.now registers.old start starters.now) (graph_runner (graph_of graph.now) starters.now) (listed words.now) budget (start_at start (take max_registers registers.old)) result }
{
    cfg::run::run_graph_with_words(graph, registers, start, budget, words, starters)
}

// "Run machine" with words: cycle k, from 0, uses word k.
#[tactic(auto, using(crate::proofs::Runs::end_is, crate::proofs::Runs::blocks_are))]
pub fn run_machine_with_words(
    machine: &[u32],
    registers: &mut [u32],
    start: u32,
    budget: u32,
    words: &[u32],
) -> Result<MachineRun, Refusal>
    ensures value { result ≡ machine_words_run machine.now registers.old start budget words.now }
    ensures run_value { end_of result ≡ machine_words_answer machine.now registers.old start budget words.now }
    ensures registers_after { registers.new ≡ machine_words_registers machine.now registers.old start budget words.now }
    ensures blocks_value { blocks_of result ≡ machine_words_blocks machine.now registers.old start budget words.now }
    ensures run_values { RunValues (machine_words_refusal machine.now registers.old start) (machine_runner (machine_of machine.now)) (listed words.now) budget (start_at start (take max_registers registers.old)) (end_of result) }
{
    fsmd::run::run_machine_with_words(machine, registers, start, budget, words)
}

// "The array's capture against the model's": two recordings of one run, of so many registers. The answer says which line is the first
// faulty one, or how many cycles both hold and the lowest of them where they differ.
pub fn compare_captures(
    registers: u32,
    first: &[u8],
    second: &[u8],
) -> Result<Comparison, CaptureError>
    ensures value { result ≡ compare_captures registers first.now second.now }
    ensures capture_values { CaptureValues registers first.now second.now result }
    ensures means { Means registers first.now second.now result }
{
    capture::compare_captures(registers, first, second)
}

// "Which states touch this register?", asked of one state.
pub fn touches(machine: &[u32], state: u32, register: u32) -> Result<bool, Refusal>
    ensures value { result ≡ touches_answer machine.now state register }
    ensures touches_values { TouchesValues machine.now state register result }
{
    touching::touches(machine, state, register)
}

// The lowest-numbered state that touches a register.
pub fn first_touching(machine: &[u32], register: u32) -> Result<Option<u32>, Refusal>
    ensures value { result ≡ first_touching_answer machine.now register }
    ensures first_touching_values { FirstTouchingValues machine.now register result }
{
    touching::first_touching(machine, register)
}

// "Registers known within bounds": what one cycle of a state can do to registers from lowest to highest values. Where nothing is refused,
// every cycle of the state from values inside ends inside what the buffers then hold, whatever the input word; and these may be asked about
// again, since no lowest is above its highest.
// Two buffers and not one of ranges: the C function `gutkavu_bounds` is lent both.
pub fn bounds(
    machine: &[u32],
    lowest: &mut [u32],
    highest: &mut [u32],
    state: u32,
) -> Result<(), Refusal>
    ensures value { result ≡ bounds_answer machine.now lowest.old highest.old state }
    ensures lowest_after { lowest.new ≡ lowest_left machine.now lowest.old highest.old state }
    ensures highest_after { highest.new ≡ highest_left machine.now lowest.old highest.old state }
    ensures bounds_values { BoundsValues machine.now lowest.old highest.old state result }
    ensures cycles_stay_inside { result ≡ Ok tt → CyclesStayInside machine.now state lowest.old highest.old lowest.new highest.new }
    ensures not_crossed { result ≡ Ok tt → NotCrossed machine.now lowest.new highest.new }
{
    bounds::operation::bounds(machine, lowest, highest, state)
}
