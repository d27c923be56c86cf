// A state's blocks placed one after another.
use crate::edges::Edges;
use crate::groups::Groups;
use crate::joins::BlockProgress;
use crate::wires::WireList;
use cfg::graph::AdmittedGraph;
use fsmd::MachineTable;

impl<'a> WireList<'a> {
    ghost use Rattle.std.specs.Prelude.{◌≡◌, ◌+◌, ◌≤◌, length, set};
    ghost use Rattle.cfg.specs.Table.{block_at};
    ghost use Rattle.state.specs.Wires.{enter, nothing};
    ghost use Rattle.state.specs.Making.{max_edges, Room, Placeable, put_block};
    ghost use Rattle.state.specs.Steps.{Grown, state_in};
    ghost use Rattle.state.specs.BlocksMaking.{build_blocks, with_arrivals, AllPlaceable};

    // Block `x` placed: its arrival and joins, its instructions, its ending; the edges that lead to it are used up. The reference of its arrival.
    pub fn put(&mut self, edges: &mut Edges, graph: AdmittedGraph, starter: bool, x: u32) -> u32
        requires placeable { Placeable graph.words.now x }
        requires room_of_edges { edges.old.count + 2 ≤ max_edges }
        requires room { Room (length (put_block self.old.registers starter (block_at graph.words.now x) x (state_in edges.old self.old)).wires) self.old.words.now }
        ensures grown { Grown (put_block self.old.registers starter (block_at graph.entry.words.now x) x (state_in edges.old self.old)) edges.new self.old self.new }
        ensures few_edges { edges.new.count ≤ edges.old.count + 2 }
        ensures arrival { result ≡ (enter self.old.registers starter x (state_in edges.old self.old)).arrival }
    {
        let block = x as usize;
        let first = edges.first_to(x);
        let mut entered = BlockProgress::enter(self, edges, starter, first, x);
        let arrival = entered.arrival;
        entered.assign_all(self, graph, block);
        edges.use_up(first, x);
        entered.close(self, edges, graph, block);
        arrival
    }

    // The blocks of `order` placed one after another, from nothing; the arrival of each is listed at its number.
    // Edges and arrivals stand beside the list of wires: of a struct that holds a struct with a `&mut`, a caller learns nothing.
    pub fn place_all(
        &mut self,
        edges: &mut Edges,
        graph: AdmittedGraph,
        order: &[u8],
        groups: &Groups,
        arrivals: &mut [u32; MachineTable::BLOCKS],
    )
        requires all_placeable { AllPlaceable graph.words.now order.now }
        requires nothing { (self.old.count ≡ 0) × (edges.old.count ≡ 0) }
        requires room { Room (length (build_blocks self.old.registers graph.words.now groups.now.starters order.now nothing).wires) self.old.words.now }
        ensures grown { Grown (build_blocks self.old.registers graph.entry.words.now groups.now.starters order.now nothing) edges.new self.old self.new }
        ensures arrivals { arrivals.new ≡ with_arrivals self.old.registers graph.entry.words.now groups.now.starters order.now nothing arrivals.old }
    {
        for block in order {
            let x = u32::from(*block);
            arrivals[x as usize] = self.put(edges, graph, groups.is_starter(x), x);
        }
    }
}
