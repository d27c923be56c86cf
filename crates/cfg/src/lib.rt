// The control-flow graph: limits, blocks, and the layout of its table.
#![tactic(auto)]

ghost use Rattle.std.specs.Prelude.{◌≡◌};
ghost use Rattle.cfg.specs.Graph.{no_instruction, empty_block};

use runs::RunEnd;
use word::{Comparison, Registers};

pub mod decode; // decode.rt: a table's words as blocks
pub mod admission; // admission.rt: which tables are admitted
pub mod graph; // graph.rt: an admitted table as a type
pub mod starters; // starters.rt: the starters of a run with words
pub mod run; // run.rt: a graph's run with a budget

// The head of a graph table: how many blocks and registers the graph has.
#[derive(Clone, Copy, Debug, PartialEq, Eq)]
pub struct GraphTable {
    pub blocks: u32,
    pub registers: u32,
}

impl GraphTable {
    // Limits, the bytes of a text among them.
    pub const BLOCKS: usize = RunEnd::PLACES;

    pub const REGISTERS: usize = Registers::COUNT;

    pub const TEXT: usize = 16384;
    // Where B and R stand.
    pub const BLOCK_COUNT: usize = 0;

    pub const REGISTER_COUNT: usize = 1;
    // Words of the head, and of the whole table.
    pub const HEAD: usize = GraphTable::REGISTER_COUNT + 1;

    pub const WORDS: usize = GraphTable::HEAD + GraphTable::BLOCKS * Block::WORDS;
}

// Code, written register, first and second operand; of a set the first operand is the literal. The code is a word and no enum: C lends
// the table, and any word may stand there until it is admitted.
#[derive(Clone, Copy, Debug, PartialEq, Eq)]
pub struct Instruction {
    pub code: u32,
    pub d: u32,
    pub a: u32,
    pub b: u32,
}

impl Instruction {
    // Where an instruction's words after its code stand, and how many there are.
    pub const D: usize = 1;

    pub const A: usize = 2;

    pub const B: usize = 3;

    pub const WORDS: usize = Instruction::B + 1;

    // The words of no instruction.
    pub fn none() -> Instruction
        ensures { result ≡ no_instruction }
    {
        Instruction {
            code: 0,
            d: 0,
            a: 0,
            b: 0,
        }
    }
}

// Two registers compared.
#[derive(Clone, Copy, Debug, PartialEq, Eq)]
pub struct Condition {
    pub comparison: Comparison,
    pub a: u32,
    pub b: u32,
}

#[derive(Clone, Copy, Debug, PartialEq, Eq)]
pub enum Ending {
    // The target.
    Goto(u32),
    // The target where the condition holds, and where it does not.
    Ite(Condition, u32, u32),
    Halt,
}

impl Ending {
    // The kinds, an ending's first word. Words and no enum: C lends the table, and any word may stand there until it is admitted.
    pub const GOTO: u32 = 1;

    pub const ITE: u32 = 2;

    pub const HALT: u32 = 3;
    // Where the words after the kind stand, and how many there are. The target of a goto stands where that of a true condition does.
    pub const COMPARISON: usize = 1;

    pub const A: usize = 2;

    pub const B: usize = 3;

    pub const TRUE: usize = 4;

    pub const FALSE: usize = 5;

    pub const WORDS: usize = Ending::FALSE + 1;
}

// The first `count` instructions are the block's. A count beside them and no list: the words of a table that is not admitted may count more.
#[derive(Clone, Copy, Debug, PartialEq, Eq)]
pub struct Block {
    pub count: u32,
    pub instructions: [Instruction; Block::INSTRUCTIONS],
    pub ending: Ending,
}

impl Block {
    pub const INSTRUCTIONS: usize = 8;
    // Where in a block's words its first instruction and its ending begin and the last, always 0, stands, and how many there are.
    pub const CODE: usize = 1;

    pub const ENDING: usize = Block::CODE + Block::INSTRUCTIONS * Instruction::WORDS;

    pub const LAST: usize = Block::ENDING + Ending::WORDS;

    pub const WORDS: usize = Block::LAST + 1;

    // No instruction, and a halt.
    pub fn empty() -> Block
        ensures { result ≡ empty_block }
    {
        Block {
            count: 0,
            instructions: [Instruction::none(); Block::INSTRUCTIONS],
            ending: Ending::Halt,
        }
    }
}
