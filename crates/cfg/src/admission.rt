// Which tables are admitted: the words of a valid graph, and every unused word 0.
ghost use Rattle.std.specs.Prelude.{◌≡◌, ◌&&◌, ◌||◌, map, ◌+◌, ◌-◌, ◌≤◌, ◌<◌, length};
ghost use Rattle.runs.specs.Lists.{up_from, every};
ghost use Rattle.cfg.specs.Layout.{max_blocks, max_instructions, ending_words, block_words, graph_words};
ghost use Rattle.cfg.specs.Graph.{wordless_graph, valid_instruction};
ghost use Rattle.cfg.specs.Table.{instruction_at, graph_of, admitted_graph};
ghost use Rattle.cfg.specs.Fits.{zeros, ending_fits, passes, block_passes};

use crate::{Block, Ending, GraphTable, Instruction, decode};
use word::{Code, Comparison};

// The words from `from` up to `to` are 0.
fn all_zero(table: &[u32], from: usize, to: usize) -> bool
    requires { (from ≤ to) × (to ≤ length table.now) }
    ensures { result ≡ zeros table.now from (to - from) }
{
    let mut clear = true;
    // No early end, as `all` has one: so the loop compares many words at once.
    for word in &table[from..to] {
        clear &= *word == 0;
    }
    clear
}

// A register where the code reads one, else 0; a set's first operand is a literal, and for an `in` words must be given.
#[tactic(auto, using(crate::proofs::Codes::set_good, crate::proofs::Codes::copy_good, crate::proofs::Codes::two_good, crate::proofs::Codes::sx_good, crate::proofs::Codes::sample_good, crate::proofs::Codes::none_good, crate::proofs::Codes::other_good))]
fn instruction_valid(i: Instruction, registers: u32, words: bool) -> bool
    ensures { result ≡ (valid_instruction registers i && passes words i) }
{
    // The codes of two operands stand apart: in one `match` with the others, LLVM jumps by a table, which took up to 1.2 times as long.
    if Code::ADD <= i.code && i.code <= Code::SAR {
        return i.d < registers && i.a < registers && i.b < registers;
    }
    match i.code {
        Code::SET => i.d < registers && i.b == 0,
        Code::COPY | Code::SX => i.d < registers && i.a < registers && i.b == 0,
        Code::IN => words && i.d < registers && i.a == 0 && i.b == 0,
        _ => false,
    }
}

// The first `count` instructions of the block whose words begin at `start`.
fn code_valid(table: &[u32], start: usize, count: usize, registers: u32, words: bool) -> bool
    requires { (count ≤ max_instructions) × (start + block_words ≤ length table.now) }
    ensures { result ≡ every (λ i. valid_instruction registers i && passes words i) (map (instruction_at table.now start) (up_from 0 count)) }
{
    (0..count).all(|i| instruction_valid(decode::instruction_at(table, start, i), registers, words))
}

#[tactic(auto, using(crate::proofs::Words::goto_fits, crate::proofs::Words::ite_fits, crate::proofs::Words::halt_fits, crate::proofs::Words::none_fits))]
fn ending_fits(table: &[u32], at: usize, head: GraphTable) -> bool
    requires { at + ending_words ≤ length table.now }
    ensures { result ≡ ending_fits head.blocks head.registers table.now at }
{
    let c = table[at + Ending::COMPARISON];
    let a = table[at + Ending::A];
    let b = table[at + Ending::B];
    let t = table[at + Ending::TRUE];
    let f = table[at + Ending::FALSE];
    match table[at] {
        Ending::GOTO => c == 0 && a == 0 && b == 0 && t < head.blocks && f == 0,
        Ending::ITE => Comparison::FIRST <= c
            && c <= Comparison::LAST
            && a < head.registers
            && b < head.registers
            && t < head.blocks
            && f < head.blocks,
        Ending::HALT => c == 0 && a == 0 && b == 0 && t == 0 && f == 0,
        _ => false,
    }
}

#[tactic(auto, using(crate::proofs::Passing::many_passing, crate::proofs::Passing::few_passing))]
fn block_fits(table: &[u32], n: usize, head: GraphTable, words: bool) -> bool
    requires { (n < max_blocks) × (graph_words ≤ length table.now) }
    ensures { result ≡ block_passes words head.blocks head.registers table.now n }
{
    let start = GraphTable::HEAD + Block::WORDS * n;
    let used = table[start] as usize;
    let ending = start + Block::ENDING;
    used <= Block::INSTRUCTIONS
        && code_valid(table, start, used, head.registers, words)
        && all_zero(
            table,
            start + Block::CODE + Instruction::WORDS * used,
            ending,
        )
        && ending_fits(table, ending, head)
        && table[start + Block::LAST] == 0
}

fn blocks_fit(table: &[u32], head: GraphTable, words: bool) -> bool
    requires { (head.blocks ≤ max_blocks) × (graph_words ≤ length table.now) }
    ensures { result ≡ every (block_passes words head.blocks head.registers table.now) (up_from 0 head.blocks) }
{
    (0..head.blocks as usize).all(|n| block_fits(table, n, head, words))
}

// The table's words are those of a valid graph, and code 20 is among them only where words are given: one pass looks at both.
#[tactic(auto, using(crate::proofs::Words::no_block, crate::proofs::Words::many_blocks, crate::proofs::Words::no_register, crate::proofs::Words::many_registers, crate::proofs::Passing::passing_blocks))]
pub fn passes_with(table: &[u32], words: bool) -> bool
    requires { graph_words ≤ length table.now }
    ensures { result ≡ (admitted_graph table.now && (words || wordless_graph (graph_of table.now))) }
{
    let head = decode::head_of(table);
    let blocks = head.blocks as usize;
    let registers = head.registers as usize;
    1 <= blocks
        && blocks <= GraphTable::BLOCKS
        && 1 <= registers
        && registers <= GraphTable::REGISTERS
        && blocks_fit(table, head, words)
        && all_zero(
            table,
            GraphTable::HEAD + Block::WORDS * blocks,
            GraphTable::WORDS,
        )
}

// The table's words are those of a valid graph.
pub fn is_admitted(table: &[u32]) -> bool
    requires { graph_words ≤ length table.now }
    ensures { result ≡ admitted_graph table.now }
{
    passes_with(table, true)
}
