// One cycle of a machine: the state's wires in order, then the next state and all next registers at once.
ghost use Rattle.std.specs.Prelude.{◌≡◌, true, not, ◌&&◌, ◌||◌, map, ◌++◌, ◌+◌, ◌<◌, ◌≤◌, length, take, drop, eqb};
ghost use Rattle.word.specs.Word.{eval_of, over_of};
ghost use Rattle.runs.specs.Lists.{up_from, only};
ghost use Rattle.fsmd.specs.Layout.{max_states, max_registers, max_wires};
ghost use Rattle.fsmd.specs.Machine.{wire_value, worked, wire_over, wires_over, clock, nonzero};
ghost use Rattle.fsmd.specs.Table.{machine_register_count, wire_count_at, wire_at, state_at, machine_of, arrival_at, valid_wires};
ghost use Rattle.fsmd.specs.Chains.{blocks_from, Chained};
ghost use Rattle.fsmd.specs.Clock.{read_in, Ready, Arriving, after_cycle};

use super::room::Room;
use super::table::{MachineWords, record};
use super::{MachineTable, Wire};
use word::{Code, Registers};

// What a cycle gives: the registers, the word of the next state, whether a sum goes over, and how many blocks are arrived at.
// No Option: each cycle gives all four.
#[derive(Clone, Copy)]
pub struct Next {
    pub registers: Registers,
    pub state: u32,
    pub over: bool,
    pub blocks: u64,
}

// What a wire gives: its word, and whether it or one before it goes over where its block is arrived at. No Option: the word is there either way.
#[derive(Clone, Copy)]
struct Output {
    word: u32,
    over: bool,
}

// What a sum gives, which goes over only where its block is arrived at: c is not zero. Few sums do, so that c is seldom looked at.
// Six parameters: the five of `word::eval`, and whether a wire before goes over.
fn sum(sampled: u32, code: u32, a: u32, b: u32, c: u32, over: bool) -> Output
    ensures word_value { result.word ≡ eval_of sampled code a b c }
    ensures over_value { result.over ≡ (over || (over_of code a b && not (eqb c 0))) }
{
    let word = word::eval(sampled, code, a, b, c);
    if !word::over(code, a, b) {
        return Output { word, over };
    }
    Output {
        word,
        over: over | (c != 0),
    }
}

// What a wire gives, where `over` says whether one before it goes over. Only an add or sub can, c is read where it is used, and their codes
// are known where they are summed: one jump by the code leads to all of it, and other wires do nothing more than give their word.
fn evaluated<const N: usize>(room: &Room<N>, w: Wire, sampled: u32, over: bool) -> Output
    ensures word_value { result.word ≡ wire_value sampled (read_in room.now.words) w }
    ensures over_value { result.over ≡ (over || wire_over (read_in room.now.words) w) }
{
    let code = w.code;
    if code == Code::SET {
        return Output { word: w.a, over };
    }
    let a = room.read(w.a);
    let b = room.read(w.b);
    match code {
        Code::ADD => sum(sampled, Code::ADD, a, b, room.read(w.c), over),
        Code::SUB => sum(sampled, Code::SUB, a, b, room.read(w.c), over),
        _ => Output {
            word: word::eval(sampled, code, a, b, room.read(w.c)),
            over,
        },
    }
}

// The wires in order, after the sixteen registers, and whether one goes over.
fn work<const N: usize>(
    room: &mut Room<N>,
    table: MachineWords,
    first: usize,
    count: usize,
    sampled: u32,
) -> bool
    requires few_wires { first + count ≤ max_wires }
    requires few_registers { machine_register_count table.words.now ≤ max_registers }
    requires valid_wires { valid_wires (machine_register_count table.words.now) 0 (map (wire_at table.words.now) (up_from first count)) ≡ true }
    requires room { max_registers + count ≤ N }
    ensures room_after { take (max_registers + count) room.new.words ≡ worked sampled (take max_registers room.old.words) (map (wire_at table.entry.words.now) (up_from first count)) }
    ensures over_value { result ≡ wires_over sampled (take max_registers room.old.words) (map (wire_at table.entry.words.now) (up_from first count)) }
{
    let mut over = false;
    // By index: each word is made of those before it.
    for n in 0..count {
        let at = MachineTable::REGISTERS + n;
        let given = evaluated(room, table.wire(first + n), sampled, over);
        over = given.over;
        room.words[at] = given.word;
    }
    over
}

// The next registers, by the references from `at` on: the first `count` are taken, the others keep their words.
fn taken<const N: usize>(
    room: &Room<N>,
    table: &[u32],
    at: usize,
    count: usize,
    registers: Registers,
) -> Registers
    requires count_in_bounds { at + count ≤ length table.now }
    requires count_le_max_registers { count ≤ max_registers }
    ensures { result.words ≡ map (read_in room.now.words) (take count (drop at table.now)) ++ drop count registers.words }
{
    let mut next = registers;
    // A loop of sixteen passes is unrolled, and each word of the file is then a variable. Stored at an index that varies, the words would
    // make the copy of the whole file wait.
    for i in 0..MachineTable::REGISTERS {
        if count <= i {
            return next;
        }
        next.words[i] = room.read(table[at + i]);
    }
    next
}

// How many blocks of state k are arrived at. The chains stand beside the table and in no struct with their fact: a ghost field would need a
// proof beside it that a fact by recursion has one proof, which is longer than the two clauses.
fn arrived<const N: usize>(room: &Room<N>, table: MachineWords, chains: &[u8], k: usize) -> u64
    requires chained { Chained table.words.now 0 chains.now }
    requires k_lt_max_states { k < max_states }
    ensures { result ≡ length (only (λ b. not (eqb (read_in room.now.words (arrival_at table.entry.words.now b)) 0)) (blocks_from table.entry.words.now k 0)) }
{
    let mut n: u64 = 0;
    // A chain and no range: each block gives the next.
    let mut b = usize::from(chains[k]);
    while b < MachineTable::BLOCKS {
        n += u64::from(room.read(table.words[MachineTable::ARRIVALS + b]) != 0);
        b = usize::from(chains[MachineTable::STATES + b]);
    }
    n
}

// One cycle of state k, on a sampled word. The room begins with the registers, before and after.
pub fn cycle<const N: usize>(
    room: &mut Room<N>,
    table: MachineWords,
    chains: &[u8],
    k: usize,
    registers: Registers,
    sampled: u32,
) -> Next
    requires ready { Ready table.words.now k }
    requires arriving { Arriving table.words.now k }
    requires chained { Chained table.words.now 0 chains.now }
    requires room { max_registers + wire_count_at table.words.now k ≤ N }
    requires registers_first { take max_registers room.old.words ≡ registers.words }
    ensures result_value { after_cycle table.entry.words.now result ≡ clock (machine_of table.entry.words.now) sampled (state_at table.entry.words.now k) registers.words }
    ensures blocks_value { result.blocks ≡ nonzero (worked sampled registers.words (state_at table.entry.words.now k).wires) (map (arrival_at table.entry.words.now) (blocks_from table.entry.words.now k 0)) }
    ensures registers_first { take max_registers room.new.words ≡ result.registers.words }
{
    let at = record(k);
    let count = table.wire_count(k);
    let over = work(room, table, table.first_wire(k), count, sampled);
    let state = room.read(table.words[at + MachineTable::NEXT_STATE]);
    let used = table.head().registers as usize;
    let next = taken(
        room,
        table.words,
        at + MachineTable::NEXT_REGISTERS,
        used,
        registers,
    );
    let blocks = arrived(room, table, chains, k);
    room.set_registers(next, used);
    Next {
        registers: next,
        state,
        over,
        blocks,
    }
}
