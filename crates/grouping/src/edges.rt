// The successors of a graph's blocks as bytes, two a block, true first, 255 where there is none.
ghost use Rattle.std.specs.Prelude.{◌≡◌, ℕ};
ghost use Rattle.cfg.specs.Graph.{successors};
ghost use Rattle.cfg.specs.Table.{graph_of};
ghost use Rattle.grouping.specs.Bytes.{edges_in};

use cfg::graph::AdmittedGraph;
use cfg::{Ending, GraphTable};
use fsmd::MachineTable;

// The byte of no block and of no state, and no None, since the states' bytes become words of a machine table.
pub const NONE: u8 = MachineTable::NONE as u8;

// Each block's successors.
pub type Edges = [[u8; 2]; GraphTable::BLOCKS];

pub fn edges_of(graph: AdmittedGraph) -> Edges
    ensures { (n : ℕ) → edges_in result n ≡ successors (graph_of graph.entry.words.now) n }
{
    let mut edges = [[NONE; 2]; GraphTable::BLOCKS];
    for n in 0..graph.blocks() as usize {
        edges[n] = match graph.ending(n) {
            Ending::Goto(to) => [to as u8, NONE],
            Ending::Ite(_, holds, fails) => [holds as u8, fails as u8],
            Ending::Halt => [NONE; 2],
        };
    }
    edges
}
