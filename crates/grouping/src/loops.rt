// Loop detection: a depth-first visit from block 0.
ghost use Rattle.std.specs.Prelude.{◌≡◌};
ghost use Rattle.grouping.specs.Bytes.{loop_starters};

use crate::edges::Edges;
use crate::starters::Starters;
use crate::visit::{Search, visit};
use cfg::GraphTable;

// How far a block is.
#[derive(Clone, Copy, Debug, PartialEq, Eq)]
enum Mark {
    New,
    OnPath,
    Finished,
}

// Each block that is met while on the path becomes a starter.
#[derive(Drop)]
struct LoopSearch {
    marks: [Mark; GraphTable::BLOCKS],
    starters: Starters,
}

impl Search for LoopSearch {
    ghost use Rattle.std.specs.Prelude.{◌≡◌, length};
    ghost use Rattle.cfg.specs.Layout.{max_blocks};
    ghost use Rattle.grouping.specs.Marks.{blanks};
    ghost use Rattle.grouping.specs.Searches.{loop_search, is_new};

    ghost visitor = { loop_search };

    ghost ready = { λ s. length s.marks ≡ max_blocks };

    ghost unseen = { λ s. blanks is_new s.marks };

    fn meet(&mut self, block: u8) -> bool {
        match self.marks[usize::from(block)] {
            Mark::New => {
                self.marks[usize::from(block)] = Mark::OnPath;
                true
            }
            Mark::OnPath => {
                self.starters.add(block);
                false
            }
            Mark::Finished => false,
        }
    }

    fn finish(&mut self, block: u8) {
        self.marks[usize::from(block)] = Mark::Finished;
    }
}

// Block 0, and each block met while on the path, in order of finding.
pub fn loop_starters(edges: &Edges) -> Starters
    ensures { result ≡ loop_starters edges.now }
{
    let mut marks = [Mark::New; GraphTable::BLOCKS];
    marks[0] = Mark::OnPath;
    let mut search = LoopSearch {
        marks,
        starters: Starters::entry(),
    };
    visit(&mut search, edges, 0);
    search.starters
}
