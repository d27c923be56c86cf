// Population: states in order of creation, each depth-first from its starter.
ghost use Rattle.std.specs.Prelude.{◌≡◌};
ghost use Rattle.grouping.specs.Bytes.{population};

use crate::edges::{Edges, NONE};
use crate::starters::Starters;
use crate::visit::{Search, visit};
use cfg::GraphTable;

// A state takes the blocks that none has taken, up to the starters of other states.
#[derive(Drop)]
struct StateSearch<'a> {
    starters: &'a Starters,
    states: [u8; GraphTable::BLOCKS],
    number: u8,
}

impl<'a> Search for StateSearch<'a> {
    ghost use Rattle.std.specs.Prelude.{◌≡◌, ◌<◌, eqb, length};
    ghost use Rattle.cfg.specs.Layout.{max_blocks};
    ghost use Rattle.fsmd.specs.Layout.{absent};
    ghost use Rattle.grouping.specs.Marks.{blanks};
    ghost use Rattle.grouping.specs.Searches.{state_search};

    ghost visitor = { state_search };

    ghost ready = { λ s. (length s.states ≡ max_blocks) × (s.number < absent) };

    ghost unseen = { λ s. blanks (λ k. eqb k absent) s.states };

    fn meet(&mut self, block: u8) -> bool {
        if self.states[usize::from(block)] != NONE || self.starters.contains(block) {
            return false;
        }
        self.states[usize::from(block)] = self.number;
        true
    }

    fn finish(&mut self, _block: u8) {}
}

// The state of each block, 255 where none has taken it.
pub fn populate(edges: &Edges, starters: &Starters) -> [u8; GraphTable::BLOCKS]
    ensures { result ≡ population edges.now starters.now }
{
    let mut search = StateSearch {
        starters,
        states: [NONE; GraphTable::BLOCKS],
        number: 0,
    };
    for root in starters.list() {
        let block = usize::from(*root);
        if search.states[block] == NONE {
            search.states[block] = search.number;
            visit(&mut search, edges, *root);
        }
        search.number += 1;
    }
    search.states
}
