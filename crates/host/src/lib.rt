// The eleven operations as C functions: include/gutkavu.h declares them. Each returns the refusal's number, 0 for success, and sets every
// other field on every call.
#![tactic(auto)]

ghost use Rattle.std.specs.Prelude.{◌≡◌};
ghost use Rattle.capture.specs.Capture.{compare_captures};
ghost use Rattle.cfg_text.specs.Read.{read_answer, read_words, read_number, read_line};
ghost use Rattle.cfg_write.specs.Write.{write_answer, write_bytes, write_number, write_length};
ghost use Rattle.synthesis.specs.Synthesis.{synthesis_answer, synthesis_words, synthesis_number};
ghost use Rattle.cfg.specs.Run.{graph_answer, graph_registers, graph_words_answer, graph_words_registers};
ghost use Rattle.fsmd.specs.Run.{machine_answer, machine_registers, machine_blocks, machine_words_answer, machine_words_registers, machine_words_blocks};
ghost use Rattle.bounds.specs.Operation.{bounds_answer, lowest_left, highest_left, bounds_number};
ghost use Rattle.touching.specs.Touching.{touches_answer, touches_number, touched_field, first_touching_answer, first_number, first_state};
ghost use Rattle.host.specs.Fields.{RunFields, CaptureFields};

use compiler::fields;
use refusal::Refusal;
use runs::RunEnd;

#[unsafe(no_mangle)]
pub extern "C" fn gutkavu_read(text: &[u8], table: &mut [u32], line: &mut u32) -> u32
    ensures value { result ≡ read_number (read_answer text.now table.old) }
    ensures line_after { line.new ≡ read_line (read_answer text.now table.old) }
    ensures table_after { table.new ≡ read_words text.now table.old }
{
    let answer = compiler::read_text(text, table);
    *line = fields::read_line(answer);
    fields::number(&answer)
}

#[unsafe(no_mangle)]
pub extern "C" fn gutkavu_write(table: &[u32], out: &mut [u8], length: &mut u32) -> u32
    ensures value { result ≡ write_number (write_answer table.now out.old) }
    ensures length_after { length.new ≡ write_length (write_answer table.now out.old) }
    ensures out_after { out.new ≡ write_bytes table.now out.old }
{
    let answer = compiler::write_text(table, out);
    *length = fields::write_length(answer);
    fields::number(&answer)
}

#[unsafe(no_mangle)]
pub extern "C" fn gutkavu_synthesise(graph: &[u32], machine: &mut [u32]) -> u32
    ensures value { result ≡ synthesis_number (synthesis_answer graph.now machine.old) }
    ensures machine_after { machine.new ≡ synthesis_words graph.now machine.old }
{
    fields::number(&compiler::synthesise(graph, machine))
}

// The fields of a run's answer. Four references and not a struct: the four C functions that run are lent each field for itself.
fn set_run(
    answer: Result<RunEnd, Refusal>,
    outcome: &mut u32,
    count: &mut u32,
    next: &mut u32,
    flag: &mut u32,
) -> u32
    ensures { RunFields answer result outcome.new count.new next.new flag.new }
{
    *outcome = fields::run_outcome(answer);
    *count = fields::run_count(answer);
    *next = fields::run_next(answer);
    *flag = fields::run_flag(answer);
    fields::number(&answer)
}

#[unsafe(no_mangle)]
pub extern "C" fn gutkavu_run_graph(
    graph: &[u32],
    registers: &mut [u32],
    start: u32,
    budget: u32,
    halted: &mut u32,
    count: &mut u32,
    next: &mut u32,
    flag: &mut u32,
) -> u32
    ensures run_fields { RunFields (graph_answer graph.now registers.old start budget) result halted.new count.new next.new flag.new }
    ensures registers_after { registers.new ≡ graph_registers graph.now registers.old start budget }
{
    let answer = compiler::run_graph(graph, registers, start, budget);
    set_run(answer, halted, count, next, flag)
}

#[unsafe(no_mangle)]
pub extern "C" fn gutkavu_run_machine(
    machine: &[u32],
    registers: &mut [u32],
    start: u32,
    budget: u32,
    halted: &mut u32,
    count: &mut u32,
    next: &mut u32,
    flag: &mut u32,
    blocks: &mut u64,
) -> u32
    ensures run_fields { RunFields (machine_answer machine.now registers.old start budget) result halted.new count.new next.new flag.new }
    ensures registers_after { registers.new ≡ machine_registers machine.now registers.old start budget }
    ensures blocks_after { blocks.new ≡ machine_blocks machine.now registers.old start budget }
{
    let answer = compiler::run_machine(machine, registers, start, budget);
    *blocks = fields::machine_blocks(answer);
    set_run(fields::machine_end(answer), halted, count, next, flag)
}

#[unsafe(no_mangle)]
pub extern "C" fn gutkavu_run_graph_with_words(
    graph: &[u32],
    registers: &mut [u32],
    start: u32,
    budget: u32,
    words: &[u32],
    starters: &[u32],
    outcome: &mut u32,
    count: &mut u32,
    next: &mut u32,
    flag: &mut u32,
) -> u32
    ensures run_fields { RunFields (graph_words_answer graph.now registers.old start budget words.now starters.now) result outcome.new count.new next.new flag.new }
    ensures registers_after { registers.new ≡ graph_words_registers graph.now registers.old start budget words.now starters.now }
{
    let answer = compiler::run_graph_with_words(graph, registers, start, budget, words, starters);
    set_run(answer, outcome, count, next, flag)
}

#[unsafe(no_mangle)]
pub extern "C" fn gutkavu_run_machine_with_words(
    machine: &[u32],
    registers: &mut [u32],
    start: u32,
    budget: u32,
    words: &[u32],
    outcome: &mut u32,
    count: &mut u32,
    next: &mut u32,
    flag: &mut u32,
    blocks: &mut u64,
) -> u32
    ensures run_fields { RunFields (machine_words_answer machine.now registers.old start budget words.now) result outcome.new count.new next.new flag.new }
    ensures registers_after { registers.new ≡ machine_words_registers machine.now registers.old start budget words.now }
    ensures blocks_after { blocks.new ≡ machine_words_blocks machine.now registers.old start budget words.now }
{
    let answer = compiler::run_machine_with_words(machine, registers, start, budget, words);
    *blocks = fields::machine_blocks(answer);
    set_run(fields::machine_end(answer), outcome, count, next, flag)
}

#[unsafe(no_mangle)]
pub extern "C" fn gutkavu_compare_captures(
    registers: u32,
    first: &[u8],
    second: &[u8],
    recording: &mut u32,
    line: &mut u64,
    shared: &mut u64,
    differs: &mut u32,
    cycle: &mut u32,
) -> u32
    ensures { CaptureFields (compare_captures registers first.now second.now) result recording.new line.new shared.new differs.new cycle.new }
{
    let answer = compiler::compare_captures(registers, first, second);
    *recording = fields::capture_recording(answer);
    *line = fields::capture_line(answer);
    *shared = fields::capture_shared(answer);
    *differs = fields::capture_differs(answer);
    *cycle = fields::capture_cycle(answer);
    fields::number(&answer)
}

#[unsafe(no_mangle)]
pub extern "C" fn gutkavu_touches(
    machine: &[u32],
    state: u32,
    register: u32,
    touched: &mut u32,
) -> u32
    ensures value { result ≡ touches_number (touches_answer machine.now state register) }
    ensures touched_after { touched.new ≡ touched_field (touches_answer machine.now state register) }
{
    let answer = compiler::touches(machine, state, register);
    *touched = fields::touched(answer);
    fields::number(&answer)
}

#[unsafe(no_mangle)]
pub extern "C" fn gutkavu_first_touching(machine: &[u32], register: u32, state: &mut u32) -> u32
    ensures value { result ≡ first_number (first_touching_answer machine.now register) }
    ensures state_after { state.new ≡ first_state (first_touching_answer machine.now register) }
{
    let answer = compiler::first_touching(machine, register);
    *state = fields::first_touching_state(answer);
    fields::number(&answer)
}

#[unsafe(no_mangle)]
pub extern "C" fn gutkavu_bounds(
    machine: &[u32],
    lowest: &mut [u32],
    highest: &mut [u32],
    state: u32,
) -> u32
    ensures value { result ≡ bounds_number (bounds_answer machine.now lowest.old highest.old state) }
    ensures lowest_after { lowest.new ≡ lowest_left machine.now lowest.old highest.old state }
    ensures highest_after { highest.new ≡ highest_left machine.now lowest.old highest.old state }
{
    fields::number(&compiler::bounds(machine, lowest, highest, state))
}
