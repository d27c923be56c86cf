// A graph table's words as a head, instructions, endings and blocks. The words are a slice: admission reads them before it is known that
// they are a graph's, and crate state reads by these functions too. `graph` has the same for an admitted table.
ghost use Rattle.std.specs.Prelude.{◌≡◌, ◌+◌, ◌≤◌, ◌<◌, length};
ghost use Rattle.cfg.specs.Layout.{max_blocks, max_instructions, head_words, block_words, ending_words, graph_words};
ghost use Rattle.cfg.specs.Table.{block_count, graph_register_count, instruction_at, ending_at, block_at};

use crate::{Block, Condition, Ending, GraphTable, Instruction};
use word::Comparison;

// B and R.
pub fn head_of(table: &[u32]) -> GraphTable
    requires { head_words ≤ length table.now }
    ensures { (result.blocks ≡ block_count table.now) × (result.registers ≡ graph_register_count table.now) }
{
    GraphTable {
        blocks: table[GraphTable::BLOCK_COUNT],
        registers: table[GraphTable::REGISTER_COUNT],
    }
}

// Instruction i of the block whose words begin at `start`.
#[tactic(auto, unfolding(crate::specs::Table::instruction_at))]
pub fn instruction_at(table: &[u32], start: usize, i: usize) -> Instruction
    requires { (i < max_instructions) × (start + block_words ≤ length table.now) }
    ensures { result ≡ instruction_at table.now start i }
{
    let at = start + Block::CODE + Instruction::WORDS * i;
    Instruction {
        code: table[at],
        d: table[at + Instruction::D],
        a: table[at + Instruction::A],
        b: table[at + Instruction::B],
    }
}

// The ending whose words begin at `at`.
#[tactic(auto, using(crate::proofs::Blocks::ending_goto, crate::proofs::Blocks::ending_ite, crate::proofs::Blocks::ending_halt))]
pub fn ending_at(table: &[u32], at: usize) -> Ending
    requires { at + ending_words ≤ length table.now }
    ensures { result ≡ ending_at table.now at }
{
    match table[at] {
        Ending::GOTO => Ending::Goto(table[at + Ending::TRUE]),
        Ending::ITE => Ending::Ite(
            Condition {
                comparison: Comparison::decode(table[at + Ending::COMPARISON]),
                a: table[at + Ending::A],
                b: table[at + Ending::B],
            },
            table[at + Ending::TRUE],
            table[at + Ending::FALSE],
        ),
        _ => Ending::Halt,
    }
}

// The bound of a block's number stands in each contract: a type for such numbers would be made and taken apart at every call.
// Block n.
pub fn block_at(table: &[u32], n: usize) -> Block
    requires { (n < max_blocks) × (graph_words ≤ length table.now) }
    ensures { result ≡ block_at table.now n }
{
    let start = GraphTable::HEAD + Block::WORDS * n;
    let mut block = Block::empty();
    // A loop of eight passes is unrolled: the words are copied as they stand.
    for i in 0..Block::INSTRUCTIONS {
        block.instructions[i] = instruction_at(table, start, i);
    }
    block.count = table[start];
    block.ending = ending_at(table, start + Block::ENDING);
    block
}
