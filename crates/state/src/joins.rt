// How a block's arrival and values come about: a start, or joins of its incoming edges.
ghost use Rattle.std.specs.Prelude.{◌≤◌};
ghost use Rattle.fsmd.specs.Layout.{max_registers};

use crate::edges::{EdgeEntry, Edges};
use crate::wires::{WireList, wire};
use fsmd::MachineTable;
use word::Code;

// A block in the making: the reference of its arrival, and those of its registers. Their number is the graph's, and no list grows here.
#[derive(Clone, Copy)]
pub struct BlockProgress {
    pub arrival: u32,
    pub values: [u32; MachineTable::REGISTERS],
    pub registers: usize,
    ghost few: { registers ≤ max_registers },
}

impl BlockProgress {
    ghost use Rattle.std.specs.Prelude.{◌≡◌, [], ◌∷◌, ◌+◌, ◌≤◌, length, take};
    ghost use Rattle.std.specs.List.{position};
    ghost use Rattle.runs.specs.Lists.{up_from};
    ghost use Rattle.fsmd.specs.Layout.{max_registers};
    ghost use Rattle.state.specs.Wires.{set_wire, selects, join as joined, joins, enter as entered, leads_to};
    ghost use Rattle.state.specs.Making.{Room};
    ghost use Rattle.state.specs.EdgeList.{edge_of, entries, passes, leading};
    ghost use Rattle.state.specs.Steps.{Adds, Becomes, values_of, block_in, state_in};

    // At the start of the cycle each register's value is the one of its own number.
    const START: [u32; MachineTable::REGISTERS] = [
        0, 1, 2, 3, 4, 5, 6, 7, 8, 9, 10, 11, 12, 13, 14, 15,
    ];

    // A wire `set` of the arrival, and the values at the start of the cycle.
    pub fn begin(wires: &mut WireList, arrival: u32) -> BlockProgress
        requires { Room (wires.old.count + 1) wires.old.words.now }
        ensures arrival { result.arrival ≡ max_registers + wires.old.count }
        ensures registers { result.registers ≡ wires.old.registers }
        ensures values { values_of result ≡ up_from 0 wires.old.registers }
        ensures wires { Adds (set_wire arrival ∷ []) wires.old wires.new }
    {
        let arrival = wires.emit(wire(Code::SET, arrival, 0, 0));
        BlockProgress {
            arrival,
            values: BlockProgress::START,
            registers: wires.registers,
        }
    }

    // For each register in rising order: the edge's value where the edge is taken, else the one so far.
    pub fn select(&mut self, wires: &mut WireList, edge: &EdgeEntry)
        requires { Room (wires.old.count + self.old.registers) wires.old.words.now }
        ensures kept { (self.new.arrival ≡ self.old.arrival) × (self.new.registers ≡ self.old.registers) }
        ensures values { values_of self.new ≡ up_from (max_registers + wires.old.count) self.old.registers }
        ensures wires { Adds (selects edge.now.taken (take self.old.registers edge.now.values) (values_of self.old)) wires.old wires.new }
    {
        // By index: of a struct with an invariant no field is lent as `&mut`.
        for r in 0..self.registers {
            self.values[r] = wires.emit(wire(
                Code::SELECT,
                edge.taken,
                edge.values[r],
                self.values[r],
            ));
        }
    }

    // A further incoming edge: an `or` for the arrival, then a 19 for each register.
    pub fn join(&mut self, wires: &mut WireList, edge: &EdgeEntry)
        requires { Room (length (joined (edge_of self.old.registers edge.now) (block_in self.old wires.old)).wires) wires.old.words.now }
        ensures { Becomes (joined (edge_of self.old.registers edge.now) (block_in self.old wires.old)) self.old.registers self.new wires.old wires.new }
    {
        let arrival = wires.emit(wire(Code::OR, self.arrival, edge.taken, 0));
        self.select(wires, edge);
        self.arrival = arrival;
    }

    // Those of the edges that lead to block `x` joined to what stands there.
    fn join_all(&mut self, wires: &mut WireList, edges: &[EdgeEntry], x: u32)
        requires { Room (length (joins (leading self.old.registers (leads_to x) edges.now) (block_in self.old wires.old)).wires) wires.old.words.now }
        ensures { Becomes (joins (leading self.old.registers (leads_to x) edges.now) (block_in self.old wires.old)) self.old.registers self.new wires.old wires.new }
    {
        for edge in edges {
            if edge.leads_to(x) {
                self.join(wires, edge);
            }
        }
    }

    // A starter's arrival and values, or those of the edges that lead to block `x`, of which the first stands at `first`.
    pub fn enter(
        wires: &mut WireList,
        edges: &Edges,
        starter: bool,
        first: Option<usize>,
        x: u32,
    ) -> BlockProgress
        requires first { first ≡ position (passes (leads_to x)) (entries edges.now) }
        requires room { Room (length (entered wires.old.registers starter x (state_in edges.now wires.old)).wires) wires.old.words.now }
        ensures { Becomes (entered wires.old.registers starter x (state_in edges.now wires.old)) wires.old.registers result wires.old wires.new }
    {
        if starter {
            return BlockProgress::begin(wires, 1);
        }
        match first {
            None => BlockProgress::begin(wires, 0),
            Some(first) => {
                let entries = edges.entries();
                let mut block = BlockProgress {
                    arrival: entries[first].taken,
                    values: entries[first].values,
                    registers: wires.registers,
                };
                block.join_all(wires, &entries[first + 1..], x);
                block
            }
        }
    }
}
