// The starters of a grouping.
ghost use Rattle.std.specs.Prelude.{◌≡◌, true, false, ℕ, [], ◌∷◌, ◌<◌, ◌≤◌, length, get_or};
ghost use Rattle.runs.specs.Lists.{mem};
ghost use Rattle.cfg.specs.Layout.{max_blocks};
ghost use Rattle.grouping.specs.Bytes.{with_starter};

use cfg::GraphTable;
use std::marker::Model;

// The starters in order, and a mark at each of them, so that `contains` looks at one. An array and its count, since no `ArrayVec` is `Copy`.
#[derive(Clone, Copy)]
pub struct Starters {
    // 0 behind the starters.
    list: [u8; GraphTable::BLOCKS],
    count: usize,
    marks: [bool; GraphTable::BLOCKS],
}

// In contracts the list alone.
impl Model for Starters {
    ghost use Rattle.std.specs.Prelude.{List, ℕ, length, take};
    ghost use Rattle.runs.specs.Lists.{padded};
    ghost use Rattle.cfg.specs.Layout.{max_blocks};
    ghost use Rattle.grouping.specs.Listed.{Listed, marks_of, list_back, count_back, marks_back};

    ghost Value = { List ℕ };

    ghost view = { λ s. take s.count s.list };

    ghost invariant = { λ s. Listed s.list s.count s.marks };

    ghost inverse = { λ l. record { list = padded max_blocks 0 l; count = length l; marks = marks_of l } };

    ghost inverse_ok = { λ s h i. record { list = list_back h i; count = count_back h i; marks = marks_back h i } };
}

impl Starters {
    // Block 0 alone.
    pub(crate) fn entry() -> Starters
        ensures { result ≡ 0 ∷ [] }
    {
        let mut marks = [false; GraphTable::BLOCKS];
        marks[0] = true;
        Starters {
            list: [0; GraphTable::BLOCKS],
            count: 1,
            marks,
        }
    }

    pub fn list(&self) -> &[u8]
        ensures list { result.now ≡ self.now }
        ensures few { length self.now ≤ max_blocks }
        ensures low { (x : ℕ) → mem x self.now ≡ true → x < max_blocks }
    {
        &self.list[..self.count]
    }

    // The same by block: a mark at each starter.
    pub fn marks(&self) -> &[bool; GraphTable::BLOCKS]
        ensures { (x : ℕ) → get_or result.now x false ≡ mem x self.now }
    {
        &self.marks
    }

    // The bound of a block's number stands in each contract: a type for such numbers would be made and taken apart at every call.
    pub fn contains(&self, block: u8) -> bool
        requires { block < max_blocks }
        ensures { result ≡ mem block self.now }
    {
        let at = usize::from(block);
        self.marks[at]
    }

    // A block becomes the newest starter when it isn't one already.
    pub(crate) fn add(&mut self, block: u8)
        requires { block < max_blocks }
        ensures { self.new ≡ with_starter block self.old }
    {
        if !self.marks[usize::from(block)] {
            self.list[self.count] = block;
            self.count += 1;
            self.marks[usize::from(block)] = true;
        }
    }
}
