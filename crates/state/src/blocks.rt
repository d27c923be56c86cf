// What a block adds to its state: its instructions, its ending.
ghost use Rattle.std.specs.Prelude.{◌≡◌, [], ◌∷◌, ◌+◌, ◌≤◌, ◌<◌, length, get_or, eqb, ltb};
ghost use Rattle.word.specs.Word.{choose, set_code, comparison_code};
ghost use Rattle.fsmd.specs.Layout.{max_registers, max_blocks, max_wires};
ghost use Rattle.cfg.specs.Layout.{block_offset, max_instructions};
ghost use Rattle.cfg.specs.Graph.{instructions_of};
ghost use Rattle.cfg.specs.Table.{block_at};
ghost use Rattle.state.specs.Wires.{wire as wire_of, and_wire, and_not_wire, instruction_wire, assign as assigned, enter, assigns, close as closed, after};
ghost use Rattle.state.specs.Making.{max_edges, Room, put_block};
ghost use Rattle.state.specs.EdgeList.{pending};
ghost use Rattle.state.specs.Steps.{Adds, Becomes, Grown, SameWords, values_of, block_in, state_in};

use crate::edges::{EdgeEntry, Edges, Target};
use crate::joins::BlockProgress;
use crate::wires::{WireList, wire};
use cfg::graph::AdmittedGraph;
use cfg::{Block, Condition, Ending, GraphTable, Instruction, decode};
use fsmd::Wire;
use word::Code;

// Word number `place` of a wire that reads so many: 0 where it does not read the word.
fn if_read(arity: u32, place: u32, word: u32) -> u32
    ensures { result ≡ choose (ltb arity place) 0 word }
{
    if arity < place { 0 } else { word }
}

impl BlockProgress {
    // The reference of a register's value; 0 of none.
    fn value(&self, register: u32) -> u32
        ensures { result ≡ get_or (values_of self.now) register 0 }
    {
        match self.values[..self.registers].get(register as usize) {
            Some(reference) => *reference,
            None => 0,
        }
    }

    // The reference that stands for word a: a set's is its literal.
    fn first_operand(&self, i: Instruction) -> u32
        ensures { result ≡ choose (eqb i.code set_code) i.a (get_or (values_of self.now) i.a 0) }
    {
        if i.code == Code::SET {
            i.a
        } else {
            self.value(i.a)
        }
    }

    // The same code over references; word c is the block's arrival where the code may go over.
    #[tactic(auto, unfolding(crate::specs::Wires::instruction_wire))]
    fn instruction_wire(&self, i: Instruction) -> Wire
        ensures { result ≡ instruction_wire (λ x. get_or (values_of self.now) x 0) self.now.arrival i }
    {
        let arity = Wire::arity(i.code);
        let a = if_read(arity, 1, self.first_operand(i));
        let b = if_read(arity, 2, self.value(i.b));
        let c = if_read(arity, 3, self.arrival);
        wire(i.code, a, b, c)
    }

    fn assign(&mut self, wires: &mut WireList, i: Instruction)
        requires { Room (wires.old.count + 1) wires.old.words.now }
        ensures { Becomes (assigned i (block_in self.old wires.old)) self.old.registers self.new wires.old wires.new }
    {
        let reference = wires.emit(self.instruction_wire(i));
        let d = i.d as usize;
        if d < self.registers {
            self.values[d] = reference;
        }
    }

    // The instructions of block `x`, in order.
    pub fn assign_all(&mut self, wires: &mut WireList, graph: AdmittedGraph, x: usize)
        requires known { x < max_blocks }
        requires short { get_or graph.words.now (block_offset x) 0 ≤ max_instructions }
        requires room { Room (length (assigns (instructions_of (block_at graph.words.now x)) (block_in self.old wires.old)).wires) wires.old.words.now }
        ensures { Becomes (assigns (instructions_of (block_at graph.entry.words.now x)) (block_in self.old wires.old)) self.old.registers self.new wires.old wires.new }
    {
        let start = GraphTable::HEAD + Block::WORDS * x;
        for i in 0..graph.words[start] as usize {
            self.assign(wires, decode::instruction_at(graph.words, start, i));
        }
    }

    // An ite's comparison, and the wires that say which way it goes, true first.
    fn branch(&self, wires: &mut WireList, c: Condition) -> (u32, u32)
        requires { Room (wires.old.count + 3) wires.old.words.now }
        ensures references { (result.0 ≡ 1 + (max_registers + wires.old.count)) × (result.1 ≡ 2 + (max_registers + wires.old.count)) }
        ensures wires { Adds (wire_of (comparison_code c.comparison) (get_or (values_of self.now) c.a 0) (get_or (values_of self.now) c.b 0) 0 ∷ and_wire self.now.arrival (max_registers + wires.old.count) ∷ and_not_wire self.now.arrival (max_registers + wires.old.count) ∷ []) wires.old wires.new }
    {
        let comparison = c.comparison;
        let compared = wire(comparison.code(), self.value(c.a), self.value(c.b), 0);
        let holds = wires.emit(compared);
        let yes = wires.emit(wire(Code::AND, self.arrival, holds, 0));
        let no = wires.emit(wire(Code::AND_NOT, self.arrival, holds, 0));
        (yes, no)
    }

    // The edge out of the block to a target, with its values.
    fn edge(&self, target: Target, taken: u32) -> EdgeEntry
        ensures { result ≡ record { target = target; taken = taken; values = self.now.values } }
    {
        EdgeEntry {
            target,
            taken,
            values: self.values,
        }
    }

    // The ending of block `x`: its wires, and its edges after those before, true first.
    pub fn close(&self, wires: &mut WireList, edges: &mut Edges, graph: AdmittedGraph, x: usize)
        requires known { x < max_blocks }
        requires registers { self.now.registers ≡ wires.old.registers }
        requires room_of_edges { edges.old.count + 2 ≤ max_edges }
        requires room { Room (length (closed (block_at graph.words.now x).ending (block_in self.now wires.old)).wires) wires.old.words.now }
        ensures grown { Grown (after (pending wires.old.registers edges.old) (closed (block_at graph.entry.words.now x).ending (block_in self.now wires.old))) edges.new wires.old wires.new }
        ensures few_edges { edges.new.count ≤ edges.old.count + 2 }
    {
        match graph.ending(x) {
            Ending::Goto(t) => edges.add(self.edge(Target::Block(t), self.arrival)),
            Ending::Ite(c, t, f) => {
                let (yes, no) = self.branch(wires, c);
                edges.add(self.edge(Target::Block(t), yes));
                edges.add(self.edge(Target::Block(f), no));
            }
            Ending::Halt => edges.add(self.edge(Target::Halt, self.arrival)),
        }
    }
}
