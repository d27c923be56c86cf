// The order in which the blocks of a state are placed, by counts of the edges that each block waits for.
#![tactic(auto)]

ghost use Rattle.std.specs.Prelude.{◌≡◌, [], ◌∷◌, ◌++◌, ℕ, ◌+◌, ◌<◌, ◌≤◌, length, get_or, take, drop, position};
ghost use Rattle.runs.specs.Lists.{concat_map};
ghost use Rattle.fsmd.specs.Layout.{max_blocks};
ghost use Rattle.grouping.specs.Bytes.{row};
ghost use Rattle.placement.specs.Counts.{waiting, lowered};
ghost use Rattle.placement.specs.PlacementBytes.{marked, members_in, placed_in, awaited, target_in, targets_in, counts_in, is_ready};

use arrayvec::ArrayVec;
use cfg::GraphTable;
use grouping::edges::NONE;

// The blocks of state k, in rising order.
fn members(states: &[u8], k: u8) -> ArrayVec<u8, { GraphTable::BLOCKS }>
    requires { (length states.now ≤ max_blocks) × (k < max_blocks) }
    ensures { result.items ≡ members_in states.now k }
{
    let mut blocks = ArrayVec::new();
    for (x, state) in states.iter().enumerate() {
        if *state == k {
            blocks.push(x as u8);
        }
    }
    blocks
}

// Which edges of a graph are in-state: those to a block that is no starter.
#[derive(Clone, Copy)]
struct InState<'a> {
    edges: &'a [[u8; 2]],
    starts: &'a [bool],
}

impl<'a> InState<'a> {
    // The edges of u: past the end there are none.
    fn row(self, u: u8) -> [u8; 2]
        ensures { result ≡ row self.entry.edges.now u }
    {
        self.edges.get(usize::from(u)).copied().unwrap_or([NONE; 2])
    }

    // Whether t is a starter: past the end there is none.
    fn marked(self, t: u8) -> bool
        ensures { result ≡ marked self.entry.starts.now t }
    {
        self.starts.get(usize::from(t)).copied().unwrap_or(false)
    }

    // Whether an edge to t is one.
    fn awaits(self, t: u8) -> bool
        ensures { result ≡ awaited self.entry.starts.now t }
    {
        usize::from(t) < GraphTable::BLOCKS && !self.marked(t)
    }

    // One edge more to t.
    fn raise(self, waits: &mut [u8; GraphTable::BLOCKS], t: u8)
        requires { (x : ℕ) → counts_in waits.old x < 255 }
        ensures { (x : ℕ) → counts_in waits.new x ≡ waiting (target_in self.entry.starts.now t) x + counts_in waits.old x }
    {
        if self.awaits(t) {
            waits[usize::from(t)] += 1;
        }
    }

    // One edge less to t. No one function with `raise`: it would take the change as a closure, whose effect its contract would have to name.
    fn lower(self, waits: &mut [u8; GraphTable::BLOCKS], t: u8)
        requires { (x : ℕ) → waiting (target_in self.starts.now t) x ≤ counts_in waits.old x }
        ensures { counts_in waits.new ≡ lowered (target_in self.entry.starts.now t) (counts_in waits.old) }
    {
        if self.awaits(t) {
            waits[usize::from(t)] -= 1;
        }
    }

    // For each block, how many lead to it from `blocks`.
    fn count(self, blocks: &[u8]) -> [u8; GraphTable::BLOCKS]
        requires { length blocks.now ≤ max_blocks }
        ensures { counts_in result ≡ waiting (concat_map (targets_in self.entry.edges.now self.entry.starts.now) blocks.now) }
    {
        let mut waits = [0; GraphTable::BLOCKS];
        for block in blocks {
            let [holds, fails] = self.row(*block);
            self.raise(&mut waits, holds);
            self.raise(&mut waits, fails);
        }
        waits
    }

    // Block u is placed: each of its edges lowers the count of its target.
    #[tactic(auto, using(crate::proofs::CountSteps::lower_first, crate::proofs::CountSteps::lower_second))]
    fn pass(self, waits: &mut [u8; GraphTable::BLOCKS], u: u8)
        requires { (x : ℕ) → waiting (targets_in self.edges.now self.starts.now u) x ≤ counts_in waits.old x }
        ensures { counts_in waits.new ≡ lowered (targets_in self.entry.edges.now self.entry.starts.now u) (counts_in waits.old) }
    {
        let [holds, fails] = self.row(u);
        self.lower(waits, holds);
        self.lower(waits, fails);
    }
}

// The place of the first block that waits for no edge.
fn choose(left: &[u8], waits: &[u8; GraphTable::BLOCKS]) -> Option<usize>
    ensures { result ≡ position (is_ready waits.now) left.now }
{
    left.iter()
        .position(|x| waits.get(usize::from(*x)).copied().unwrap_or(0) == 0)
}

// The block at i comes to the front, past those before it.
fn to_front(left: &mut [u8], i: usize)
    requires { i < length left.old }
    ensures { left.new ≡ get_or left.old i 0 ∷ (take i left.old ++ drop (i + 1) left.old) }
{
    let mut carried = left[i];
    // By hand: the library's rotation needs `memmove`, and of a C library the archive takes `memcpy` and `memset` alone.
    for j in 0..=i {
        let next = left[j];
        left[j] = carried;
        carried = next;
    }
}

// The blocks of state k, always the lowest-numbered that waits for no edge. A block past the end of `edges` leads nowhere, and one past the end of
// `starts` is no starter.
pub fn place(
    edges: &[[u8; 2]],
    starts: &[bool],
    states: &[u8],
    k: u8,
) -> ArrayVec<u8, { GraphTable::BLOCKS }>
    requires { (length states.now ≤ max_blocks) × (k < max_blocks) }
    ensures few { length result.items ≤ max_blocks }
    ensures placed { result.items ≡ placed_in edges.now starts.now (members_in states.now k) max_blocks [] }
{
    let mut blocks = members(states, k);
    let in_state = InState { edges, starts };
    let mut waits = in_state.count(blocks.as_slice());
    let mut count = 0;
    while let Some(i) = choose(&blocks.as_slice()[count..], &waits) {
        let left = &mut blocks.as_mut_slice()[count..];
        to_front(left, i);
        let block = left[0];
        in_state.pass(&mut waits, block);
        count += 1;
    }
    blocks.truncate(count);
    blocks
}
