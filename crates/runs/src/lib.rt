// What the runs of graphs and machines share: the end of a run with a budget, its words, and the register buffer in and out of a
// register file.
#![tactic(auto)]

ghost use Rattle.std.specs.Prelude.{◌≡◌, ◌++◌, ◌≤◌, ltb, length, get_or, take, drop};
ghost use Rattle.word.specs.Word.{choose};
ghost use Rattle.word.specs.RegisterFile.{file_words};

use word::Registers;

// How a run ended.
#[derive(Clone, Copy, Debug, PartialEq, Eq)]
pub enum RunEnd {
    // The blocks or cycles run, the halting one included, and whether a sum went over.
    Halted(u32, bool),
    // The blocks or cycles run, the block or state that comes next, and whether a sum went over.
    Spent(u32, u32, bool),
    // The same, where budget is left and the words are used up.
    Dry(u32, u32, bool),
}

impl RunEnd {
    // The most blocks that a graph has, and states that a machine has.
    pub const PLACES: usize = 64;
    // No block and no state.
    pub const NONE: u32 = 255;
}

// The first 16 words of a buffer.
pub fn load(buffer: &[u32]) -> Registers
    requires { file_words ≤ length buffer.now }
    ensures { result.words ≡ take file_words buffer.now }
{
    let mut file = Registers::zero();
    file.words.copy_from_slice(&buffer[..Registers::COUNT]);
    file
}

// The file's words as the first 16 of a buffer; the others stay.
pub fn store(buffer: &mut [u32], file: Registers)
    requires { file_words ≤ length buffer.old }
    ensures { buffer.new ≡ file.words ++ drop file_words buffer.old }
{
    buffer[..Registers::COUNT].copy_from_slice(&file.words);
}

// The arrivals that have a word, counted as far as a budget goes.
pub fn lasting(words: &[u32], budget: u32) -> u32
    ensures { result ≡ choose (ltb (length words.now) budget) (length words.now) budget }
{
    words.len().min(budget as usize) as u32
}

// The word of arrival k, and 0 where the list has none.
pub fn sampled(words: &[u32], k: u32) -> u32
    ensures { result ≡ get_or words.now k 0 }
{
    words.get(k as usize).copied().unwrap_or(0)
}
