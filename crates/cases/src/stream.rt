// A case's parts, taken from the front of a stream of bytes. Every number is a word of four bytes, the least significant first.
ghost use Rattle.std.specs.Prelude.{◌≤◌, length, IfSome};

// What is left of a stream. A part that is not there, or whose count is above its limit, is None: the case is damaged.
#[derive(Drop)]
pub struct Stream<'a> {
    pub rest: &'a [u8],
}

impl<'a> Stream<'a> {
    fn word(&mut self) -> Option<u32> {
        let (bytes, rest) = self.rest.split_first_chunk::<4>()?;
        self.rest = rest;
        Some(u32::from_le_bytes(*bytes))
    }

    // A word that counts something.
    fn count(&mut self, limit: usize) -> Option<usize>
        ensures { IfSome result (λ n. n ≤ limit) }
    {
        let n = self.word()? as usize;
        if n <= limit { Some(n) } else { None }
    }

    // A count within its limit, then that many bytes.
    fn bytes(&mut self, limit: usize) -> Option<&'a [u8]>
        ensures { IfSome result (λ bytes. length bytes.now ≤ limit) }
    {
        let n = self.count(limit)?;
        let (bytes, rest) = self.rest.split_at_checked(n)?;
        self.rest = rest;
        Some(bytes)
    }

    // The same with items of N bytes.
    fn items<const N: usize>(&mut self, limit: usize) -> Option<&'a [[u8; N]]>
        requires { (limit ≤ 65536) × (1 ≤ N) × (N ≤ 8) }
        ensures { IfSome result (λ items. length items.now ≤ limit) }
    {
        let n = self.count(limit)?;
        let (bytes, rest) = self.rest.split_at_checked(n * N)?;
        self.rest = rest;
        Some(bytes.as_chunks::<N>().0)
    }

    fn starts(&mut self) -> Option<Starts> {
        Some(Starts {
            start_block: self.word()?,
            block_budget: self.word()?,
            start_state: self.word()?,
            cycle_budget: self.word()?,
        })
    }

    fn captures(&mut self) -> Option<Captures<'a>> {
        Some(Captures {
            registers: self.word()?,
            first: self.bytes(Case::CAPTURE)?,
            second: self.bytes(Case::CAPTURE)?,
        })
    }

    fn asked(&mut self) -> Option<Asked<'a>> {
        Some(Asked {
            state: self.word()?,
            register: self.word()?,
            lowest: self.items(Case::REGISTERS)?,
            highest: self.items(Case::REGISTERS)?,
        })
    }

    // The case at the front.
    pub fn case(&mut self) -> Option<Case<'a>> {
        Some(Case {
            text: self.bytes(Case::TEXT)?,
            graph: self.count(Case::GRAPH)?,
            graph_patches: self.items(Case::PATCHES)?,
            output: self.count(Case::OUTPUT)?,
            machine: self.count(Case::MACHINE)?,
            machine_patches: self.items(Case::PATCHES)?,
            registers: self.items(Case::REGISTERS)?,
            starts: self.starts()?,
            words: self.items(Case::WORDS)?,
            starters: self.items(Case::STARTERS)?,
            captures: self.captures()?,
            asked: self.asked()?,
        })
    }
}

// Where both runs start and what they may use.
#[derive(Clone, Copy, Debug, PartialEq, Eq)]
pub struct Starts {
    pub start_block: u32,
    pub block_budget: u32,
    pub start_state: u32,
    pub cycle_budget: u32,
}

// Two recordings of so many registers.
#[derive(Clone, Copy)]
pub struct Captures<'a> {
    pub registers: u32,
    pub first: &'a [u8],
    pub second: &'a [u8],
}

// What is asked about: a state, a register, and the lowest and highest words of the registers.
#[derive(Clone, Copy)]
pub struct Asked<'a> {
    pub state: u32,
    pub register: u32,
    pub lowest: &'a [[u8; 4]],
    pub highest: &'a [[u8; 4]],
    pub ghost lowest_within: { length lowest.now ≤ 20 },
    pub ghost highest_within: { length highest.now ≤ 20 },
}

// The text, sizes of buffers, pairs of index and word that are patched, register words, the words and starters of runs with words, two
// recordings, and what is asked about.
#[derive(Clone, Copy)]
pub struct Case<'a> {
    pub text: &'a [u8],
    pub graph: usize,
    pub graph_patches: &'a [[u8; 8]],
    pub output: usize,
    pub machine: usize,
    pub machine_patches: &'a [[u8; 8]],
    pub registers: &'a [[u8; 4]],
    pub starts: Starts,
    pub words: &'a [[u8; 4]],
    pub starters: &'a [[u8; 4]],
    pub captures: Captures<'a>,
    pub asked: Asked<'a>,
    pub ghost text_within: { length text.now ≤ 20000 },
    pub ghost graph_within: { graph ≤ 2600 },
    pub ghost graph_patches_within: { length graph_patches.now ≤ 64 },
    pub ghost output_within: { output ≤ 17000 },
    pub ghost machine_within: { machine ≤ 13828 },
    pub ghost machine_patches_within: { length machine_patches.now ≤ 64 },
    pub ghost registers_within: { length registers.now ≤ 20 },
    pub ghost words_within: { length words.now ≤ 64 },
    pub ghost starters_within: { length starters.now ≤ 70 },
}

impl Case<'_> {
    // Limits of the counts.
    pub const TEXT: usize = 20000;

    pub const GRAPH: usize = 2600;

    pub const OUTPUT: usize = 17000;

    pub const MACHINE: usize = 13828;

    pub const REGISTERS: usize = 20;

    pub const PATCHES: usize = 64;

    pub const WORDS: usize = 64;

    pub const STARTERS: usize = 70;

    pub const CAPTURE: usize = 4000;
    // The bytes of a case, at most.
    pub const BYTES: usize = 29880;
}
