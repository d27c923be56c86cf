// Which machine tables are admitted: the conditions of refusal 10.
ghost use Rattle.std.specs.Prelude.{◌≡◌, MatchOption, MatchResult, Some, None, true, false, ◌&&◌, ◌||◌, eqb, ltb, map, ◌+◌, ◌<◌, ◌≤◌, length, take, drop, slice_index};
ghost use Rattle.word.specs.Word.{set_code};
ghost use Rattle.runs.specs.Lists.{up_from, every};
ghost use Rattle.fsmd.specs.Layout.{max_states, max_blocks, max_registers, max_wires, record_offset, next_state_offset, next_registers_offset};
ghost use Rattle.fsmd.specs.Machine.{reads};
ghost use Rattle.fsmd.specs.Touch.{touch_word};
ghost use Rattle.fsmd.specs.Table.{state_count, machine_register_count, block_state_at, arrival_at, wire_at, state_at, first_wire_at, wire_count_at, touch_at, valid_reference, valid_wire, valid_wires, valid_state, within as within_of, apart as apart_of, right_touch, right_block, right_blocks, admitted_machine, table_refusal};

use super::table::{MachineWords, record};
use super::touch::with_bit;
use super::{MachineTable, Wire};
use refusal::Refusal;
use word::Code;

// A table that is long enough and admitted.
#[derive(Clone, Copy)]
pub struct AdmittedMachine<'a> {
    pub table: MachineWords<'a>,
    pub ghost admitted: { admitted_machine table.words.now ≡ true },
}

impl<'a> AdmittedMachine<'a> {
    // The table as an admitted one: refused where it is short, and then where it is not admitted.
    pub fn admit(table: &'a [u32]) -> Result<AdmittedMachine<'a>, Refusal>
        ensures { MatchResult result (λ machine. machine.table.words.now ≡ table.now) (λ refusal. table_refusal table.now ≡ Some refusal) }
    {
        if table.len() < MachineTable::WORDS {
            return Err(Refusal::ShortBuffer);
        }
        let table = MachineWords { words: table };
        if !table.is_admitted() {
            return Err(Refusal::BadMachine);
        }
        Ok(AdmittedMachine { table })
    }

    // How many states the machine has.
    pub fn state_count(self) -> usize
        ensures value { result ≡ state_count self.entry.table.words.now }
        ensures bound { result ≤ max_states }
    {
        self.table.head().states as usize
    }

    // How many registers it has.
    pub fn register_count(self) -> usize
        ensures value { result ≡ machine_register_count self.entry.table.words.now }
        ensures bound { result ≤ max_registers }
    {
        self.table.head().registers as usize
    }
}

// What may be referred to: the machine's registers, and so many of the state's wires.
#[derive(Clone, Copy)]
struct Scope {
    registers: usize,
    wires: usize,
}

impl Scope {
    fn has(self, x: u32) -> bool
        ensures { result ≡ valid_reference self.registers self.wires x }
    {
        // A way out for each, and no one condition: all of it would be worked out for a register too.
        let i = x as usize;
        if i < self.registers {
            return true;
        }
        if i < MachineTable::REGISTERS {
            return false;
        }
        i - MachineTable::REGISTERS < self.wires
    }

    // The touch word of next references, where each is one. One pass for both: the last comes first, as a touch word is made.
    fn touch_of(self, next: &[u32]) -> Option<u32>
        requires { length next.now ≤ max_registers }
        ensures { let valid = every (valid_reference self.registers self.wires) next.now in
            MatchOption result (valid ≡ false) (λ touch. (valid ≡ true) × (touch ≡ touch_word next.now)) }
    {
        let mut touch: u32 = 0;
        for i in (0..next.len()).rev() {
            if !self.has(next[i]) {
                return None;
            }
            touch = with_bit(touch, i, next[i]);
        }
        Some(touch)
    }

    // Word number `place` of a wire, where the wire reads that many.
    fn has_operand(self, reads: u32, place: u32, x: u32) -> bool
        ensures { result ≡ (ltb reads place || valid_reference self.registers self.wires x) }
    {
        reads < place || self.has(x)
    }

    // Word a of a wire: a set's is its literal and no reference.
    fn has_first(self, code: u32, reads: u32, x: u32) -> bool
        ensures { result ≡ (eqb code set_code || (ltb reads 1 || valid_reference self.registers self.wires x)) }
    {
        code == Code::SET || self.has_operand(reads, 1, x)
    }

    // Every reference that a wire reads is one.
    #[tactic(auto, using(crate::proofs::WireReads::operand_tests))]
    fn has_reads(self, w: Wire) -> bool
        ensures { result ≡ every (valid_reference self.registers self.wires) (reads w) }
    {
        let code = w.code;
        let reads = word::arity(code);
        self.has_first(code, reads, w.a)
            && self.has_operand(reads, 2, w.b)
            && self.has_operand(Wire::arity(code), 3, w.c)
    }

    // The wire has a known code, and the references that it reads are registers or earlier wires.
    #[tactic(auto, unfolding(crate::specs::Table::valid_wire))]
    fn allows(self, w: Wire) -> bool
        ensures { result ≡ valid_wire self.registers self.wires w }
    {
        Code::FIRST <= w.code && w.code <= Code::LAST && self.has_reads(w)
    }
}

// The wires of state k end within those of the machine.
fn within(table: MachineWords, k: usize) -> bool
    requires { k < max_states }
    ensures { result ≡ within_of table.entry.words.now k }
{
    table.first_wire(k) + table.wire_count(k) <= MachineTable::WIRES
}

// States j and k share no wire.
fn apart(table: MachineWords, j: usize, k: usize) -> bool
    requires j_lt_max_states { j < max_states }
    requires k_lt_max_states { k < max_states }
    ensures { result ≡ apart_of table.entry.words.now j k }
{
    let first = table.first_wire(j);
    let count = table.wire_count(j);
    let other = table.first_wire(k);
    let others = table.wire_count(k);
    count == 0 || others == 0 || first + count <= other || other + others <= first
}

// State k shares no wire with an earlier one.
fn apart_from_earlier(table: MachineWords, k: usize) -> bool
    requires { k < max_states }
    ensures { result ≡ every (λ j. apart_of table.entry.words.now j k) (up_from 0 k) }
{
    // A `for`, and no `all`: with that, what is read of state k would be read again for each earlier state.
    for j in 0..k {
        if !apart(table, j, k) {
            return false;
        }
    }
    true
}

// A table whose counts of states and registers are within their limits.
#[derive(Clone, Copy)]
struct Counted<'a> {
    table: MachineWords<'a>,
    states: usize,
    registers: usize,
    ghost states_value: { states ≡ state_count table.words.now },
    ghost registers_value: { registers ≡ machine_register_count table.words.now },
    ghost some_states: { 1 ≤ states },
    ghost few_states: { states ≤ max_states },
    ghost some_registers: { 1 ≤ registers },
    ghost few_registers: { registers ≤ max_registers },
}

impl<'a> Counted<'a> {
    // The table with its counts; where one is not within its limits, no such table is admitted.
    fn of(table: MachineWords<'a>) -> Option<Counted<'a>>
        ensures { MatchOption result (admitted_machine table.entry.words.now ≡ false) (λ counts. counts.table.words.now ≡ table.entry.words.now) }
    {
        let head = table.head();
        let states = head.states as usize;
        let registers = head.registers as usize;
        if states < 1 || MachineTable::STATES < states {
            return None;
        }
        if registers < 1 || MachineTable::REGISTERS < registers {
            return None;
        }
        Some(Counted {
            table,
            states,
            registers,
        })
    }

    fn scope(self, wires: usize) -> Scope
        ensures { (result.registers ≡ self.entry.registers) × (result.wires ≡ wires) }
    {
        Scope {
            registers: self.registers,
            wires,
        }
    }

    // First wire and count, two words of a state's record, are handed on as they stand.
    fn valid_wires(self, first: usize, count: usize) -> bool
        requires { first + count ≤ max_wires }
        ensures { result ≡ valid_wires self.entry.registers 0 (map (wire_at self.entry.table.words.now) (up_from first count)) }
    {
        (0..count).all(|n| self.scope(n).allows(self.table.wire(first + n)))
    }

    // The next references and touch word of state k, which has so many wires.
    fn valid_next(self, k: usize, wires: usize) -> bool
        requires { k < max_states }
        ensures { let t = self.entry.table.words.now in
            let next = take self.entry.registers (drop (record_offset k + next_registers_offset) t) in
            result ≡ (valid_reference self.entry.registers wires (slice_index t (record_offset k + next_state_offset))
            && every (valid_reference self.entry.registers wires) next && eqb (touch_at t k) (touch_word next)) }
    {
        let scope = self.scope(wires);
        let at = record(k);
        let next = &self.table.words[at + MachineTable::NEXT_REGISTERS..][..self.registers];
        if !scope.has(self.table.words[at + MachineTable::NEXT_STATE]) {
            return false;
        }
        let Some(touch) = scope.touch_of(next) else {
            return false;
        };
        self.table.touch(k) == touch
    }

    // The wires, next references and touch word of state k.
    #[tactic(auto, using(crate::proofs::Machines::valid_state_tests))]
    fn valid_state(self, k: usize) -> bool
        requires k_lt_states { k < self.states }
        requires all_within { every (within_of self.table.words.now) (up_from 0 self.states) ≡ true }
        ensures { let t = self.entry.table.words.now in
            result ≡ (valid_state (machine_register_count t) (state_at t k) && right_touch t k) }
    {
        let count = self.table.wire_count(k);
        self.valid_wires(self.table.first_wire(k), count) && self.valid_next(k, count)
    }

    fn all_within(self) -> bool
        ensures { result ≡ every (within_of self.entry.table.words.now) (up_from 0 self.entry.states) }
    {
        (0..self.states).all(|k| within(self.table, k))
    }

    // Every two states share no wire.
    fn pairs_apart(self) -> bool
        ensures { result ≡ every (λ k. every (λ j. apart_of self.entry.table.words.now j k) (up_from 0 k)) (up_from 0 self.entry.states) }
    {
        (0..self.states).all(|k| apart_from_earlier(self.table, k))
    }

    // Each state's wires stand behind those of the states before it.
    fn in_order(self) -> bool
        ensures { result ≡ true → every (λ k. every (λ j. apart_of self.entry.table.words.now j k) (up_from 0 k)) (up_from 0 self.entry.states) ≡ true }
    {
        let mut end = 0;
        for k in 0..self.states {
            let first = self.table.first_wire(k);
            if first < end {
                return false;
            }
            end = first + self.table.wire_count(k);
        }
        true
    }

    // The wires of a table that synthesis made stand in order, and no pair of states is looked at.
    fn all_apart(self) -> bool
        ensures { result ≡ every (λ k. every (λ j. apart_of self.entry.table.words.now j k) (up_from 0 k)) (up_from 0 self.entry.states) }
    {
        self.in_order() || self.pairs_apart()
    }

    fn all_valid(self) -> bool
        requires { every (within_of self.table.words.now) (up_from 0 self.states) ≡ true }
        ensures { let t = self.entry.table.words.now in
            result ≡ every (λ k. valid_state (machine_register_count t) (state_at t k) && right_touch t k) (up_from 0 self.entry.states) }
    {
        (0..self.states).all(|k| self.valid_state(k))
    }

    // Block b is absent and has no arrival, or the reference of its arrival is a wire of its state.
    fn right_block(self, b: usize) -> bool
        requires { b < max_blocks }
        ensures { let t = self.entry.table.words.now in
            result ≡ right_block t (block_state_at t b) (arrival_at t b) }
    {
        let k = self.table.words[MachineTable::BLOCK_STATES + b];
        let x = self.table.words[MachineTable::ARRIVALS + b] as usize;
        if k == MachineTable::NONE {
            return x == 0;
        }
        let state = k as usize;
        state < self.states
            && MachineTable::REGISTERS <= x
            && x - MachineTable::REGISTERS < self.table.wire_count(state)
    }

    fn all_right(self) -> bool
        ensures { result ≡ right_blocks self.entry.table.words.now }
    {
        (0..MachineTable::BLOCKS).all(|b| self.right_block(b))
    }

    // The conditions in the order of refusal 10; each is tested only where those before it hold.
    #[tactic(auto, using(crate::proofs::Machines::admitted_tests))]
    fn is_admitted(self) -> bool
        ensures { result ≡ admitted_machine self.entry.table.words.now }
    {
        self.all_within() && self.all_apart() && self.all_valid() && self.all_right()
    }
}

impl MachineWords<'_> {
    pub fn is_admitted(self) -> bool
        ensures { result ≡ admitted_machine self.entry.words.now }
    {
        let Some(counts) = Counted::of(self) else {
            return false;
        };
        counts.is_admitted()
    }
}
