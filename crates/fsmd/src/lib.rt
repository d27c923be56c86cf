// The synthesised machine, a finite state machine with its datapath: limits, wires, and the layout of its table.
#![tactic(auto)]

ghost use Rattle.std.specs.Prelude.{◌≡◌};
ghost use Rattle.fsmd.specs.Machine.{wire_arity};

use runs::RunEnd;
use word::{Code, Registers};

pub mod table; // table.rt: words of a machine table
pub mod touch; // touch.rt: the touch word of a state
pub mod admission; // admission.rt: which machine tables are admitted
pub mod sampling; // sampling.rt: whether a machine reads the sampled word
pub mod chains; // chains.rt: the blocks of each state
pub mod room; // room.rt: what references read in a cycle
pub mod clock; // clock.rt: one cycle
pub mod run; // run.rt: a run with a budget

// The head of a machine table: how many states and registers the machine has.
#[derive(Clone, Copy, Debug, PartialEq, Eq)]
pub struct MachineTable {
    pub states: u32,
    pub registers: u32,
}

impl MachineTable {
    // Limits.
    pub const STATES: usize = RunEnd::PLACES;

    pub const BLOCKS: usize = RunEnd::PLACES;

    pub const REGISTERS: usize = Registers::COUNT;

    pub const WIRES: usize = 3072;
    // No block or no state.
    pub const NONE: u32 = RunEnd::NONE;
    // Where the words of a state's record after its first wire are, and how many there are.
    pub const WIRE_COUNT: usize = 1;

    pub const NEXT_STATE: usize = MachineTable::WIRE_COUNT + 1;

    pub const NEXT_REGISTERS: usize = MachineTable::NEXT_STATE + 1;

    pub const TOUCH: usize = MachineTable::NEXT_REGISTERS + MachineTable::REGISTERS;

    pub const RECORD: usize = MachineTable::TOUCH + 1;
    // Where N and R stand.
    pub const STATE_COUNT: usize = 0;

    pub const REGISTER_COUNT: usize = 1;
    // Where the starters, the block states, the records, the wires and the arrivals begin, and the words of the whole table.
    pub const STARTERS: usize = MachineTable::REGISTER_COUNT + 1;

    pub const BLOCK_STATES: usize = MachineTable::STARTERS + MachineTable::STATES;

    pub const RECORDS: usize = MachineTable::BLOCK_STATES + MachineTable::BLOCKS;

    pub const WIRE_WORDS: usize = MachineTable::RECORDS
        + MachineTable::STATES * MachineTable::RECORD;

    pub const ARRIVALS: usize = MachineTable::WIRE_WORDS + MachineTable::WIRES * Wire::WORDS;

    pub const WORDS: usize = MachineTable::ARRIVALS + MachineTable::BLOCKS;
    // The words of all chains of blocks: one for each state, and one for each block.
    pub const CHAINS: usize = MachineTable::STATES + MachineTable::BLOCKS;
    // Room for what references of a cycle read, the registers, then the wires: powers of two, the smaller for machines of few wires.
    pub const ROOM: usize = 4096;

    pub const SMALL_ROOM: usize = 256;
}

// A wire: what it does, and its operands. A reference below 16 is a register, and 16 + i is wire i of the state. The code is a word and no
// enum: any word may stand in a table that is not yet admitted.
#[derive(Clone, Copy, Debug, PartialEq, Eq)]
pub struct Wire {
    pub code: u32,
    pub a: u32,
    pub b: u32,
    pub c: u32,
}

impl Wire {
    // Where a wire's words after its code stand, and how many there are.
    pub const A: usize = 1;

    pub const B: usize = 2;

    pub const C: usize = 3;

    pub const WORDS: usize = Wire::C + 1;

    // How many of a, b and c a wire of this code reads: its operands and, where it may go over, the arrival of its block. The codes that
    // read c stand here by name.
    pub fn arity(code: u32) -> u32
        ensures { result ≡ wire_arity code }
    {
        // An arm each: the fact of one arm over these codes has no name that a proof could cite.
        match code {
            Code::ADD => 3,
            Code::SUB => 3,
            Code::SELECT => 3,
            _ => word::arity(code),
        }
    }
}
