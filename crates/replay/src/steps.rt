// The operations of a case in order, each with its fields of the answer line.
ghost use Rattle.std.specs.Prelude.{◌≤◌};

use cases::stream::{Asked, Captures, Case};
use cases::{contents, digest};
use compiler::fields;
use fsmd::run::MachineRun;
use refusal::Refusal;
use runs::RunEnd;

pub type Line = [u32; 49];

// Each operation by itself: reference/README.md gives it places of its own in the line.
fn read(text: &[u8], graph: &mut [u32], line: &mut Line) {
    contents::fresh_words(graph);
    let answer = compiler::read_text(text, graph);
    line[0] = fields::number(&answer);
    line[1] = fields::read_line(answer);
    line[2] = digest::of(graph);
}

fn write(graph: &[u32], out: &mut [u8], line: &mut Line) {
    contents::fresh_bytes(out);
    let answer = compiler::write_text(graph, out);
    line[3] = fields::number(&answer);
    line[4] = fields::write_length(answer);
    line[5] = digest::of(out);
}

fn synthesise(graph: &[u32], machine: &mut [u32], line: &mut Line) {
    contents::fresh_words(machine);
    let answer = compiler::synthesise(graph, machine);
    line[6] = fields::number(&answer);
    line[7] = digest::of(machine);
}

// The fields of a run's answer from a place of the line on.
fn put_run(answer: Result<RunEnd, Refusal>, line: &mut Line, at: usize)
    requires { at ≤ 27 }
{
    line[at] = fields::number(&answer);
    line[at + 1] = fields::run_outcome(answer);
    line[at + 2] = fields::run_count(answer);
    line[at + 3] = fields::run_next(answer);
    line[at + 4] = fields::run_flag(answer);
}

// Those of a graph's run, and its registers.
fn put_graph_run(answer: Result<RunEnd, Refusal>, registers: &[u32], line: &mut Line, at: usize)
    requires { at ≤ 21 }
{
    put_run(answer, line, at);
    line[at + 5] = digest::of(registers);
}

// Those of a machine's run, its blocks, and its registers. A case's runs are too short for more than 32 bits.
fn put_machine_run(
    answer: Result<MachineRun, Refusal>,
    registers: &[u32],
    line: &mut Line,
    at: usize,
)
    requires { at ≤ 27 }
{
    put_run(fields::machine_end(answer), line, at);
    line[at + 5] = (fields::machine_blocks(answer) % 0x1_0000_0000) as u32;
    line[at + 6] = digest::of(registers);
}

// Both runs without words, each on its own copy of the register words.
fn run_both(case: Case, graph: &[u32], machine: &[u32], line: &mut Line) {
    let starts = case.starts;
    let mut room = [0u32; Case::REGISTERS];
    let registers = &mut room[..case.registers.len()];
    contents::load(registers, case.registers);
    let answer = compiler::run_graph(graph, registers, starts.start_block, starts.block_budget);
    put_graph_run(answer, registers, line, 8);
    contents::load(registers, case.registers);
    let answer = compiler::run_machine(machine, registers, starts.start_state, starts.cycle_budget);
    put_machine_run(answer, registers, line, 14);
}

// Both runs on the case's words and starters, likewise.
fn run_both_with_words(case: Case, graph: &[u32], machine: &[u32], line: &mut Line) {
    let starts = case.starts;
    let mut word_room = [0u32; Case::WORDS];
    let words = &mut word_room[..case.words.len()];
    contents::load(words, case.words);
    let mut starter_room = [0u32; Case::STARTERS];
    let starters = &mut starter_room[..case.starters.len()];
    contents::load(starters, case.starters);
    let mut room = [0u32; Case::REGISTERS];
    let registers = &mut room[..case.registers.len()];
    contents::load(registers, case.registers);
    let answer = compiler::run_graph_with_words(
        graph,
        registers,
        starts.start_block,
        starts.block_budget,
        words,
        starters,
    );
    put_graph_run(answer, registers, line, 21);
    contents::load(registers, case.registers);
    let answer = compiler::run_machine_with_words(
        machine,
        registers,
        starts.start_state,
        starts.cycle_budget,
        words,
    );
    put_machine_run(answer, registers, line, 27);
}

// The listing's bytes are the first of the output, as many as the answer says.
fn list(text: &[u8], line: &mut Line) {
    let mut out = [0u8; listing::LONGEST];
    let Ok(length) = listing::list(text, &mut out) else {
        return;
    };
    if let Some(listed) = out.get(..length as usize) {
        line[34] = length;
        line[35] = digest::of(listed);
    }
}

// Line and count are as small as the recordings.
fn compare_captures(captures: Captures, line: &mut Line) {
    let answer = compiler::compare_captures(captures.registers, captures.first, captures.second);
    line[36] = fields::number(&answer);
    line[37] = fields::capture_recording(answer);
    line[38] = (fields::capture_line(answer) % 0x1_0000_0000) as u32;
    line[39] = (fields::capture_shared(answer) % 0x1_0000_0000) as u32;
    line[40] = fields::capture_differs(answer);
    line[41] = fields::capture_cycle(answer);
}

// Both questions about the case's register.
fn ask_touching(asked: Asked, machine: &[u32], line: &mut Line) {
    let one = compiler::touches(machine, asked.state, asked.register);
    line[42] = fields::number(&one);
    line[43] = fields::touched(one);
    let lowest = compiler::first_touching(machine, asked.register);
    line[44] = fields::number(&lowest);
    line[45] = fields::first_touching_state(lowest);
}

// The bounds of the case's state, on copies of the lowest and highest words.
fn ask_bounds(asked: Asked, machine: &[u32], line: &mut Line) {
    let mut low_room = [0u32; Case::REGISTERS];
    let lowest = &mut low_room[..asked.lowest.len()];
    contents::load(lowest, asked.lowest);
    let mut high_room = [0u32; Case::REGISTERS];
    let highest = &mut high_room[..asked.highest.len()];
    contents::load(highest, asked.highest);
    let answer = compiler::bounds(machine, lowest, highest, asked.state);
    line[46] = fields::number(&answer);
    line[47] = digest::of(lowest);
    line[48] = digest::of(highest);
}

// Both tables, with their patches.
fn make_tables(case: Case, graph: &mut [u32], machine: &mut [u32], line: &mut Line) {
    read(case.text, graph, line);
    contents::patch(graph, case.graph_patches);
    let mut out = [0u8; Case::OUTPUT];
    write(graph, &mut out[..case.output], line);
    synthesise(graph, machine, line);
    contents::patch(machine, case.machine_patches);
}

// All steps, on a graph and a machine buffer of the case's sizes.
pub fn answer(case: Case) -> Line {
    let mut line = [0; 49];
    let mut graph_room = [0u32; Case::GRAPH];
    let graph = &mut graph_room[..case.graph];
    let mut machine_room = [0u32; Case::MACHINE];
    let machine = &mut machine_room[..case.machine];
    make_tables(case, graph, machine, &mut line);
    run_both(case, graph, machine, &mut line);
    run_both_with_words(case, graph, machine, &mut line);
    ask_touching(case.asked, machine, &mut line);
    ask_bounds(case.asked, machine, &mut line);
    list(case.text, &mut line);
    compare_captures(case.captures, &mut line);
    line
}
