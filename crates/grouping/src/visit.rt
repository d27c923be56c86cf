// A depth-first visit of a graph's blocks by a stack, for loop detection and population: what they do at a block is a `Search`.
ghost use Rattle.std.specs.Prelude.{◌≡◌, ℕ, List, ◌<◌, ◌≤◌};
ghost use Rattle.cfg.specs.Layout.{max_blocks};
ghost use Rattle.grouping.specs.Visit.{Visitor};
ghost use Rattle.grouping.specs.Bytes.{visit_in};
ghost use Rattle.grouping.specs.Marks.{Meets};

use crate::edges::Edges;
use arrayvec::ArrayVec;
use cfg::GraphTable;

// A search is a visitor of blocks, on its own value.
pub trait Search {
    ghost visitor: { Visitor Self };

    // What holds between two calls.
    ghost ready: { Self → Type 0 };

    // How many blocks it can still go into.
    ghost unseen: { Self → ℕ };

    // Whether a block that an edge leads to is gone into.
    fn meet(&mut self, block: u8) -> bool
        requires ready { ready self.old }
        requires low { block < max_blocks }
        ensures { (path : List ℕ) → Meets visitor ready unseen path block self.old self.new result };

    fn finish(&mut self, block: u8)
        requires ready { ready self.old }
        requires low { block < max_blocks }
        ensures finished { self.new ≡ visitor.finish block self.old }
        ensures ready { ready self.new × (unseen self.new ≤ unseen self.old) };
}

// A block on the path, and how many of its successors are passed.
#[derive(Clone, Copy, Debug, Default, Drop)]
pub struct Frame {
    pub block: u8,
    pub passed: u8,
}

// The visit below a root that is gone into already.
pub fn visit<S: Search>(search: &mut S, edges: &Edges, root: u8)
    requires ready { S.ready search.old }
    requires room { S.unseen search.old < max_blocks }
    requires root { root < max_blocks }
    ensures { search.new ≡ visit_in S.visitor edges.now root search.old }
{
    let mut stack: ArrayVec<Frame, { GraphTable::BLOCKS }> = ArrayVec::new();
    stack.push(Frame {
        block: root,
        passed: 0,
    });
    'visit: while let Some(mut frame) = stack.pop() {
        // A `while`: the visit comes back to a block where it left its successors.
        'edges: while frame.passed < 2 {
            let successors = edges[usize::from(frame.block)];
            let to = successors[usize::from(frame.passed)];
            frame.passed += 1;
            if usize::from(to) < GraphTable::BLOCKS && search.meet(to) {
                stack.push(frame);
                frame = Frame {
                    block: to,
                    passed: 0,
                };
            }
        }
        search.finish(frame.block);
    }
}
