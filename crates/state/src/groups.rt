// The groups of a graph's blocks: which blocks are starters, which state a block has, and which edges leave a state.
ghost use Rattle.std.specs.Prelude.{◌≡◌, ◌<◌, ◌≤◌, length, get_or, MatchOption};
ghost use Rattle.fsmd.specs.Layout.{absent};

use crate::edges::{EdgeEntry, Edges, Target};
use fsmd::MachineTable;
use std::marker::Model;

// The starters of the states in order, and the states of the blocks.
#[derive(Drop)]
pub struct Groups<'a> {
    starters: &'a [u8],
    states: &'a [u8],
}

impl<'a> Model for Groups<'a> {
    ghost use Rattle.grouping.specs.Grouping.{Groups as Grouping};
    ghost use Rattle.state.specs.Making.{groups_in, GroupedBytes};

    ghost Value = { Grouping };

    ghost view = { λ g. groups_in g.starters.now g.states.now };

    ghost invariant = { λ g. GroupedBytes g.starters.now g.states.now };
}

// An entry of a list of blocks or states.
fn entry(list: &[u8], i: u32) -> Option<u32>
    ensures { MatchOption result (length list.now ≤ i) (λ n. (i < length list.now) × (n ≡ get_or list.now i absent)) }
{
    match list.get(i as usize) {
        Some(n) => Some(u32::from(*n)),
        None => None,
    }
}

impl<'a> Groups<'a> {
    ghost use Rattle.std.specs.Prelude.{◌≡◌};
    ghost use Rattle.std.specs.List.{position};
    ghost use Rattle.runs.specs.Lists.{mem};
    ghost use Rattle.state.specs.Wires.{leaves as leaves_of, next_state_of};
    ghost use Rattle.state.specs.Making.{groups_in, GroupedBytes};
    ghost use Rattle.state.specs.EdgeList.{entries, passes, place_of};

    pub fn new(starters: &'a [u8], states: &'a [u8]) -> Groups<'a>
        requires { GroupedBytes starters.now states.now }
        ensures { result ≡ groups_in starters.entry.now states.entry.now }
    {
        Groups { starters, states }
    }

    // A block is a starter where it is its own state's.
    pub(crate) fn is_starter(&self, y: u32) -> bool
        ensures { result ≡ mem y self.now.starters }
    {
        match entry(self.states, y) {
            Some(k) => entry(self.starters, k) == Some(y),
            None => false,
        }
    }

    // Whether an edge leads out of its state; one that is used up does not.
    pub(crate) fn leaves(&self, edge: &EdgeEntry) -> bool
        ensures { result ≡ passes (leaves_of self.now) edge.now }
    {
        match edge.target {
            Target::Block(y) => self.is_starter(y),
            Target::Halt => true,
            Target::Used => false,
        }
    }

    // The place of the first of the edges that leads out of its state.
    pub(crate) fn first_exit(&self, edges: &Edges) -> Option<usize>
        ensures { result ≡ position (passes (leaves_of self.now)) (entries edges.now) }
    {
        edges.entries().iter().position(|edge| self.leaves(edge))
    }

    // The state after an exit; after a halt 255, and no None: the word goes into the machine table.
    pub(crate) fn next_state(&self, edge: &EdgeEntry) -> u32
        ensures { result ≡ next_state_of self.now (place_of edge.now.target) }
    {
        match edge.target {
            Target::Block(y) => entry(self.states, y).unwrap_or(MachineTable::NONE),
            _ => MachineTable::NONE,
        }
    }
}
