// Where reading stands between two lines of a graph's text.
ghost use Rattle.std.specs.Prelude.{◌<◌, ◌≤◌};
ghost use Rattle.cfg.specs.Layout.{max_blocks};

// B and R, and how many blocks are read.
#[derive(Clone, Copy, Debug, PartialEq, Eq)]
pub struct BlocksRead {
    pub blocks: u32,
    pub registers: u32,
    pub done: u32,
    ghost few: { blocks ≤ max_blocks },
}

// A block that is being read, and how many instructions it has so far.
#[derive(Clone, Copy, Debug, PartialEq, Eq)]
pub struct OpenBlock {
    pub before: BlocksRead,
    pub count: u32,
    ghost below: { before.done < before.blocks },
}

// What is due.
#[derive(Clone, Copy, Debug, PartialEq, Eq)]
pub enum ReadState {
    // The graph line.
    Start,
    // A block line, or nothing where all blocks are read.
    Between(BlocksRead),
    // An instruction or an ending.
    Inside(OpenBlock),
}
