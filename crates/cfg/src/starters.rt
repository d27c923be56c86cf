// The starters of a run with words: which lists fit, and a mark at each.
ghost use Rattle.std.specs.Prelude.{ℕ, true, false, ◌≡◌, ◌≤◌, ◌<◌, ltb, MatchResult, slice_index_or};
ghost use Rattle.runs.specs.Lists.{mem, every};
ghost use Rattle.refusal.specs.declared.Refusal.TheVariants.{BadStarters};
ghost use Rattle.cfg.specs.Layout.{max_blocks};
ghost use Rattle.cfg.specs.Run.{starters_fit};
ghost use Rattle.cfg.specs.Steps.{Marks};

use crate::GraphTable;
use refusal::Refusal;

// All starters are below the number of blocks.
fn all_below(starters: &[u32], blocks: u32) -> bool
    ensures { result ≡ every (λ s. ltb s blocks) starters.now }
{
    starters.iter().all(|s| *s < blocks)
}

// A mark at every starter, and at no other block.
fn mark(starters: &[u32]) -> [bool; GraphTable::BLOCKS]
    requires { every (λ s. ltb s max_blocks) starters.now ≡ true }
    ensures { Marks starters.now result }
{
    let mut marks = [false; GraphTable::BLOCKS];
    for s in starters {
        marks[*s as usize] = true;
    }
    marks
}

// The marks of starters that fit a start block and a number of blocks.
pub fn marked(
    starters: &[u32],
    blocks: u32,
    start: u32,
) -> Result<[bool; GraphTable::BLOCKS], Refusal>
    requires { (blocks ≤ max_blocks) × (start < blocks) }
    ensures { MatchResult result (λ marks. (starters_fit blocks start starters.now ≡ true) × Marks starters.now marks) (λ refusal. (refusal ≡ BadStarters) × (starters_fit blocks start starters.now ≡ false)) }
{
    if !all_below(starters, blocks) {
        return Err(Refusal::BadStarters);
    }
    let marks = mark(starters);
    if marks[0] && marks[start as usize] {
        Ok(marks)
    } else {
        Err(Refusal::BadStarters)
    }
}
