// A graph's run with a budget of blocks, on the words of a list.
ghost use Rattle.std.specs.Prelude.{true, ◌++◌, ◌≡◌, ◌≤◌, ◌<◌, eqb, length, take, drop};
ghost use Rattle.word.specs.Word.{choose, eval_of, set_code};
ghost use Rattle.runs.specs.Runs.{start_at, up_to, answer, registers_after};
ghost use Rattle.cfg.specs.Layout.{max_registers};
ghost use Rattle.cfg.specs.Table.{block_count, graph_of};
ghost use Rattle.cfg.specs.Steps.{compared_of, leave_by, place_of, marked_runner};
ghost use Rattle.cfg.specs.Run.{graph_answer, graph_registers, graph_words_answer, graph_words_registers};

use crate::graph::AdmittedGraph;
use crate::{Condition, Ending, GraphTable, Instruction, starters};
use refusal::Refusal;
use runs::RunEnd;
use word::{Code, Comparison, Registers};

// A run's end, and the registers that it leaves.
#[derive(Clone, Copy)]
struct Ran {
    end: RunEnd,
    registers: Registers,
}

// What the instruction writes, of the words in the registers that its operands name.
#[tactic(auto, using(crate::proofs::Running::value_set))]
fn value_of(sampled: u32, i: Instruction, x: u32, y: u32) -> u32
    ensures { result ≡ eval_of sampled i.code (choose (eqb i.code set_code) i.a x) y 0 }
{
    if i.code == Code::SET {
        i.a
    } else {
        word::eval(sampled, i.code, x, y, 0)
    }
}

// The registers that an ending compares; register 0 twice where it compares none.
fn compared(ending: Ending) -> Condition
    ensures { result ≡ compared_of ending }
{
    match ending {
        Ending::Ite(c, _, _) => c,
        Ending::Goto(_) | Ending::Halt => Condition {
            comparison: Comparison::Eq,
            a: 0,
            b: 0,
        },
    }
}

// The block to which the ending leads, of the words in the registers that it compares; none after a halt.
fn next_of(ending: Ending, x: u32, y: u32) -> Option<u32>
    ensures { place_of result ≡ leave_by ending x y }
{
    match ending {
        Ending::Goto(t) => Some(t),
        Ending::Ite(c, t, f) => Some(if word::compare(c.comparison, x, y) {
            t
        } else {
            f
        }),
        Ending::Halt => None,
    }
}

// There is a word for each of the first `limit` arrivals; a move to a marked block makes the next one. A block's instructions run in
// order, each seeing the one before, in a loop of the same function: to hand the register file to another and back took up to a third
// of the time. One that goes over raises the flag, which stays; `|` takes no jump for it.
// Seven parameters and no struct: the clauses set each of them into `answer`, and would take a struct apart again.
fn run_blocks(
    graph: AdmittedGraph,
    start: u32,
    budget: u32,
    file: Registers,
    words: &[u32],
    limit: u32,
    marks: &[bool; GraphTable::BLOCKS],
) -> Ran
    requires { start < block_count graph.words.now }
    ensures end { result.end ≡ answer (marked_runner (graph_of graph.entry.words.now) marks.now) (up_to limit words.now) budget (start_at start file.words) }
    ensures registers { result.registers.words ≡ registers_after (marked_runner (graph_of graph.entry.words.now) marks.now) (up_to limit words.now) budget (start_at start file.words) }
{
    let mut at = start;
    let mut registers = file;
    let mut flag = false;
    let mut arrivals = 0;
    for count in 0..budget {
        if limit <= arrivals {
            let end = RunEnd::Dry(count, at, flag);
            return Ran { end, registers };
        }
        let block = graph.block(at as usize);
        let sampled = runs::sampled(words, arrivals);
        for next in &block.instructions[..block.count as usize] {
            // A set's literal names no register: whatever is read there is not used.
            let x = registers.words[next.a as usize % Registers::COUNT];
            let y = registers.words[next.b as usize % Registers::COUNT];
            flag = flag | word::over(next.code, x, y);
            let value = value_of(sampled, *next, x, y);
            registers = registers.put(next.d as usize, value);
        }
        let c = compared(block.ending);
        let x = registers.words[c.a as usize % Registers::COUNT];
        let y = registers.words[c.b as usize % Registers::COUNT];
        let Some(t) = next_of(block.ending, x, y) else {
            let end = RunEnd::Halted(count + 1, flag);
            return Ran { end, registers };
        };
        if marks[t as usize] {
            arrivals += 1;
        }
        at = t;
    }
    let end = RunEnd::Spent(budget, at, flag);
    Ran { end, registers }
}

// A run on the registers of a buffer; its words from 16 up stay.
// Seven parameters and no struct: the clauses set each of them into `answer`, and would take a struct apart again.
fn run_from(
    graph: AdmittedGraph,
    registers: &mut [u32],
    start: u32,
    budget: u32,
    words: &[u32],
    limit: u32,
    marks: &[bool; GraphTable::BLOCKS],
) -> RunEnd
    requires start_in_bounds { start < block_count graph.words.now }
    requires max_registers_in_bounds { max_registers ≤ length registers.old }
    ensures value { result ≡ answer (marked_runner (graph_of graph.entry.words.now) marks.now) (up_to limit words.now) budget (start_at start (take max_registers registers.old)) }
    ensures registers_after { registers.new ≡ registers_after (marked_runner (graph_of graph.entry.words.now) marks.now) (up_to limit words.now) budget (start_at start (take max_registers registers.old)) ++ drop max_registers registers.old }
{
    let file = runs::load(registers);
    let ran = run_blocks(graph, start, budget, file, words, limit, marks);
    runs::store(registers, ran.registers);
    ran.end
}

// Two operations, as C has them; what they share is `run_from`.
// "Run graph": from a start block, with a budget of blocks. Every arrival has a word, which nothing reads.
pub fn run_graph(
    table: &[u32],
    registers: &mut [u32],
    start: u32,
    budget: u32,
) -> Result<RunEnd, Refusal>
    ensures value { result ≡ graph_answer table.now registers.old start budget }
    ensures registers_after { registers.new ≡ graph_registers table.now registers.old start budget }
{
    if registers.len() < GraphTable::REGISTERS {
        return Err(Refusal::ShortBuffer);
    }
    let graph = AdmittedGraph::admit_wordless(table)?;
    if graph.blocks() <= start {
        return Err(Refusal::NoStart);
    }
    let marks = [false; GraphTable::BLOCKS];
    Ok(run_from(graph, registers, start, budget, &[], budget, &marks))
}

// "Run graph" with words: each coming to a starter is an arrival.
// Six parameters and not a struct: the C function `gutkavu_run_graph_with_words` has each, and this one's clauses name them.
pub fn run_graph_with_words(
    table: &[u32],
    registers: &mut [u32],
    start: u32,
    budget: u32,
    words: &[u32],
    starters: &[u32],
) -> Result<RunEnd, Refusal>
    ensures value { result ≡ graph_words_answer table.now registers.old start budget words.now starters.now }
    ensures registers_after { registers.new ≡ graph_words_registers table.now registers.old start budget words.now starters.now }
{
    if registers.len() < GraphTable::REGISTERS {
        return Err(Refusal::ShortBuffer);
    }
    let graph = AdmittedGraph::admit(table)?;
    let blocks = graph.blocks();
    if blocks <= start {
        return Err(Refusal::NoStart);
    }
    let marks = starters::marked(starters, blocks, start)?;
    let limit = runs::lasting(words, budget);
    Ok(run_from(graph, registers, start, budget, words, limit, &marks))
}
