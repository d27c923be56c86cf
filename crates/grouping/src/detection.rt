// Detection: a depth-first visit from block 0 that tests each edge before going down it.
ghost use Rattle.std.specs.Prelude.{◌≡◌, ◌<◌, [], ◌∷◌, length};
ghost use Rattle.cfg.specs.Layout.{max_blocks};
ghost use Rattle.grouping.specs.Grouping.{illegal};
ghost use Rattle.grouping.specs.Bytes.{detection};

use crate::edges::Edges;
use crate::starters::Starters;
use crate::visit::Frame;
use arrayvec::ArrayVec;
use cfg::GraphTable;

// Whether an edge leads to another state, and to no starter.
fn is_illegal(states: &[u8; GraphTable::BLOCKS], starters: &Starters, from: u8, to: u8) -> bool
    requires { (from < max_blocks) × (to < max_blocks) }
    ensures { result ≡ illegal starters.now states.now (from ∷ []) to }
{
    states[usize::from(from)] != states[usize::from(to)] && !starters.contains(to)
}

// The target of the first illegal edge. The scope paper names this form, so it is not `visit`: loops over the visit's stack and a block's
// successors, left by a label.
pub fn detect(edges: &Edges, states: &[u8; GraphTable::BLOCKS], starters: &Starters) -> Option<u8>
    ensures { result ≡ detection edges.now starters.now states.now }
{
    let mut seen = [false; GraphTable::BLOCKS];
    let mut stack: ArrayVec<Frame, { GraphTable::BLOCKS }> = ArrayVec::new();
    let mut found = None;
    seen[0] = true;
    stack.push(Frame {
        block: 0,
        passed: 0,
    });
    'visit: while let Some(mut frame) = stack.pop() {
        'edges: while frame.passed < 2 {
            let successors = edges[usize::from(frame.block)];
            let to = successors[usize::from(frame.passed)];
            frame.passed += 1;
            if usize::from(to) < GraphTable::BLOCKS {
                if is_illegal(states, starters, frame.block, to) {
                    found = Some(to);
                    break 'visit;
                }
                if !seen[usize::from(to)] {
                    seen[usize::from(to)] = true;
                    stack.push(frame);
                    frame = Frame {
                        block: to,
                        passed: 0,
                    };
                }
            }
        }
    }
    found
}
