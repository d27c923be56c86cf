// One state: its blocks placed in order, then its exits.
#![tactic(auto)]

mod blocks; // blocks.rt: what a block adds to its state
pub mod edges; // edges.rt: the edges out of placed blocks
mod exits; // exits.rt: where a state leads
pub mod groups; // groups.rt: starters and states of blocks
mod joins; // joins.rt: how a block's arrival and values come about
mod states; // states.rt: blocks placed one after another
mod wires; // wires.rt: the wires of a state in the making

ghost use Rattle.std.specs.Prelude.{◌≡◌, ◌++◌, ◌-◌, ◌≤◌, length, take, replicate};
ghost use Rattle.cfg.specs.Table.{graph_register_count};
ghost use Rattle.fsmd.specs.Layout.{max_registers};
ghost use Rattle.state.specs.Wires.{nothing};
ghost use Rattle.state.specs.Making.{Room, Held};
ghost use Rattle.state.specs.BlocksMaking.{with_arrivals, AllPlaceable, state_blocks};

use crate::edges::Edges;
use crate::groups::Groups;
use crate::wires::WireList;
use cfg::graph::AdmittedGraph;
use fsmd::MachineTable;

// What a finished state has: the reference of its next state, those of its next registers, of which so many are used and the others 0, and
// how many wires.
// `used` is there for the contract of `make`: how many of the references stand for values.
#[derive(Clone, Copy)]
pub struct Exit {
    pub next: u32,
    pub registers: [u32; MachineTable::REGISTERS],
    pub used: usize,
    pub wires: usize,
}

// The state whose blocks in order are `order`: its wires from the front of `wires`, and its next references. The arrival of each of
// its blocks is listed in `arrivals` at the block's number. `edges` is room for its edges.
// Edges and arrivals stand beside the list of wires: of a struct that holds a struct with a `&mut`, a caller learns nothing.
pub fn make(
    graph: AdmittedGraph,
    order: &[u8],
    groups: &Groups,
    wires: &mut [u32],
    edges: &mut Edges,
    arrivals: &mut [u32; MachineTable::BLOCKS],
) -> Exit
    requires all_placeable { AllPlaceable graph.words.now order.now }
    requires room { Room (length (state_blocks (graph_register_count graph.words.now) graph.words.now groups.now.starters groups.now.states order.now).wires) wires.old }
    ensures held { Held (state_blocks (graph_register_count graph.entry.words.now) graph.entry.words.now groups.now.starters groups.now.states order.now) wires.old result.next (take result.used result.registers) result.wires wires.new }
    ensures registers { (result.used ≤ graph_register_count graph.entry.words.now) × (result.registers ≡ take result.used result.registers ++ replicate (max_registers - result.used) 0) }
    ensures arrivals { arrivals.new ≡ with_arrivals (graph_register_count graph.entry.words.now) graph.entry.words.now groups.now.starters order.now nothing arrivals.old }
{
    edges.clear();
    let registers = graph.registers() as usize;
    let mut list = WireList {
        words: wires,
        count: 0,
        registers,
    };
    list.finish(edges, graph, order, groups, arrivals)
}
