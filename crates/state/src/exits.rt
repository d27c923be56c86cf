// The exits of a state: edges to starters and halts.
ghost use Rattle.std.specs.Prelude.{◌≡◌, [], ◌∷◌, ◌++◌, ◌+◌, ◌-◌, ◌≤◌, length, take, replicate};
ghost use Rattle.fsmd.specs.Layout.{max_registers};
ghost use Rattle.state.specs.Wires.{leaves, exit as exit_of, exits, close_state, towards, nothing};
ghost use Rattle.state.specs.Making.{Room, wires_in, Held};
ghost use Rattle.state.specs.EdgeList.{edge_of, leading, pending};
ghost use Rattle.state.specs.Steps.{Becomes, SameWords, values_of, block_in};
ghost use Rattle.state.specs.BlocksMaking.{with_arrivals, AllPlaceable, state_blocks};

use crate::Exit;
use crate::edges::{EdgeEntry, Edges};
use crate::groups::Groups;
use crate::joins::BlockProgress;
use crate::wires::{WireList, wire};
use cfg::graph::AdmittedGraph;
use fsmd::MachineTable;
use word::Code;

impl BlockProgress {
    // The first exit adds only its `set`; the arrival is here the next state's reference.
    fn first_exit(wires: &mut WireList, groups: &Groups, edge: &EdgeEntry) -> BlockProgress
        requires { Room (wires.old.count + 1) wires.old.words.now }
        ensures { Becomes (close_state groups.now (edge_of wires.old.registers edge.now ∷ []) (wires_in wires.old.count wires.old.words.now)) wires.old.registers result wires.old wires.new }
    {
        let arrival = wires.emit(wire(Code::SET, groups.next_state(edge), 0, 0));
        BlockProgress {
            arrival,
            values: edge.values,
            registers: wires.registers,
        }
    }

    // A further exit: a `set` of its next state, a 19 for the next state, then one for each register.
    fn exit(&mut self, wires: &mut WireList, groups: &Groups, edge: &EdgeEntry)
        requires { Room (length (exit_of groups.now (edge_of self.old.registers edge.now) (block_in self.old wires.old)).wires) wires.old.words.now }
        ensures { Becomes (exit_of groups.now (edge_of self.old.registers edge.now) (block_in self.old wires.old)) self.old.registers self.new wires.old wires.new }
    {
        let state = wires.emit(wire(Code::SET, groups.next_state(edge), 0, 0));
        let arrival = wires.emit(wire(Code::SELECT, edge.taken, state, self.arrival));
        self.select(wires, edge);
        self.arrival = arrival;
    }

    // Those of the edges that leave the state after what stands there.
    // No one walk with `join_all`: what is done at an edge adds wires, and a closure's contract would have to say which.
    fn exit_all(&mut self, wires: &mut WireList, groups: &Groups, edges: &[EdgeEntry])
        requires { Room (length (exits groups.now (leading self.old.registers (leaves groups.now) edges.now) (block_in self.old wires.old)).wires) wires.old.words.now }
        ensures { Becomes (exits groups.now (leading self.old.registers (leaves groups.now) edges.now) (block_in self.old wires.old)) self.old.registers self.new wires.old wires.new }
    {
        for edge in edges {
            if groups.leaves(edge) {
                self.exit(wires, groups, edge);
            }
        }
    }

    // The registers' references, and 0 behind them.
    fn next_registers(&self) -> [u32; MachineTable::REGISTERS]
        ensures values { take self.now.registers result ≡ values_of self.now }
        ensures zeros { result ≡ values_of self.now ++ replicate (max_registers - self.now.registers) 0 }
    {
        let mut registers = [0; MachineTable::REGISTERS];
        registers[..self.registers].copy_from_slice(&self.values[..self.registers]);
        registers
    }
}

impl<'a> WireList<'a> {
    // The exits of a state: the next state and the next registers.
    pub fn leave(&mut self, edges: &Edges, groups: &Groups) -> Exit
        requires { Room (length (close_state groups.now (towards (leaves groups.now) (pending self.old.registers edges.now)) (wires_in self.old.count self.old.words.now)).wires) self.old.words.now }
        ensures same { SameWords self.old self.new }
        ensures held { Held (close_state groups.now (towards (leaves groups.now) (pending self.old.registers edges.now)) (wires_in self.old.count self.old.words.now)) self.old.words.now result.next (take result.used result.registers) result.wires self.new.words.now }
        ensures registers { (result.used ≤ self.old.registers) × (result.registers ≡ take result.used result.registers ++ replicate (max_registers - result.used) 0) }
    {
        match groups.first_exit(edges) {
            None => Exit {
                next: 0,
                registers: [0; MachineTable::REGISTERS],
                used: 0,
                wires: self.count,
            },
            Some(first) => {
                let entries = edges.entries();
                let mut last = BlockProgress::first_exit(self, groups, &entries[first]);
                last.exit_all(self, groups, &entries[first + 1..]);
                Exit {
                    next: last.arrival,
                    registers: last.next_registers(),
                    used: last.registers,
                    wires: self.count,
                }
            }
        }
    }

    // The blocks of `order` placed, from nothing, and then the exits.
    // Edges and arrivals stand beside the list of wires: of a struct that holds a struct with a `&mut`, a caller learns nothing.
    pub fn finish(
        &mut self,
        edges: &mut Edges,
        graph: AdmittedGraph,
        order: &[u8],
        groups: &Groups,
        arrivals: &mut [u32; MachineTable::BLOCKS],
    ) -> Exit
        requires all_placeable { AllPlaceable graph.words.now order.now }
        requires nothing { (self.old.count ≡ 0) × (edges.old.count ≡ 0) }
        requires room { Room (length (state_blocks self.old.registers graph.words.now groups.now.starters groups.now.states order.now).wires) self.old.words.now }
        ensures same { SameWords self.old self.new }
        ensures held { Held (state_blocks self.old.registers graph.entry.words.now groups.now.starters groups.now.states order.now) self.old.words.now result.next (take result.used result.registers) result.wires self.new.words.now }
        ensures registers { (result.used ≤ self.old.registers) × (result.registers ≡ take result.used result.registers ++ replicate (max_registers - result.used) 0) }
        ensures arrivals { arrivals.new ≡ with_arrivals self.old.registers graph.entry.words.now groups.now.starters order.now nothing arrivals.old }
    {
        self.place_all(edges, graph, order, groups, arrivals);
        self.leave(edges, groups)
    }
}
