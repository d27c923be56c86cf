// Grouping: which blocks of a graph share a state.
#![tactic(auto)]

ghost use Rattle.std.specs.Prelude.{◌≡◌};
ghost use Rattle.grouping.specs.Answer.{grouping_of};

use crate::starters::Starters;
use cfg::GraphTable;
use cfg::graph::AdmittedGraph;

mod detection; // detection.rt: the first illegal edge
pub mod edges; // edges.rt: successors as bytes
mod loops; // loops.rt: starters by loop detection
mod population; // population.rt: the blocks that each state takes
pub mod starters; // starters.rt: the starters, in order and by block
mod visit; // visit.rt: the depth-first visit of loops and population

// The starters of the states, in order, and the state of each block, 255 where it has none.
#[derive(Clone, Copy)]
pub struct Grouping {
    pub starters: Starters,
    pub states: [u8; GraphTable::BLOCKS],
}

// The grouping of an admitted graph. An illegal edge's target becomes the newest starter, and population begins again from nothing.
pub fn group(graph: AdmittedGraph) -> Grouping
    ensures { result ≡ grouping_of graph.entry.words.now }
{
    let edges = edges::edges_of(graph);
    let mut starters = loops::loop_starters(&edges);
    let mut states = population::populate(&edges, &starters);
    while let Some(block) = detection::detect(&edges, &states, &starters) {
        starters.add(block);
        states = population::populate(&edges, &starters);
    }
    Grouping { starters, states }
}
