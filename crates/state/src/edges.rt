// The edges out of the placed blocks of a state: where each leads, whether it is taken, and the values along it.
ghost use Rattle.std.specs.Prelude.{◌≤◌};
ghost use Rattle.state.specs.Making.{max_edges};

use cfg::GraphTable;
use fsmd::MachineTable;

#[derive(Clone, Copy, Debug, PartialEq, Eq)]
pub enum Target {
    Block(u32),
    Halt,
    // The edge is used up: its block is placed.
    Used,
}

// Where the edge leads, the reference that says whether it is taken, and those of the registers along it.
#[derive(Clone, Copy)]
pub struct EdgeEntry {
    pub target: Target,
    pub taken: u32,
    pub values: [u32; MachineTable::REGISTERS],
}

// The first `count` entries, in the order in which they came.
#[derive(Clone, Copy)]
pub struct Edges {
    pub list: [EdgeEntry; Edges::MOST],
    pub count: usize,
    ghost few: { count ≤ max_edges },
}

impl EdgeEntry {
    ghost use Rattle.std.specs.Prelude.{◌≡◌};
    ghost use Rattle.word.specs.Word.{choose};
    ghost use Rattle.state.specs.Wires.{leads_to};
    ghost use Rattle.state.specs.EdgeList.{passes};

    // Whether the edge leads to block `x`, and is not used up.
    #[inline]
    pub(crate) fn leads_to(&self, x: u32) -> bool
        ensures { result ≡ passes (leads_to x) self.now }
    {
        self.target == Target::Block(x)
    }

    // The target once block `x` is placed.
    #[inline]
    fn target_past(&self, x: u32) -> Target
        ensures { result ≡ choose (passes (leads_to x) self.now) Target.Used self.now.target }
    {
        if self.leads_to(x) {
            Target::Used
        } else {
            self.target
        }
    }
}

impl Edges {
    ghost use Rattle.std.specs.Prelude.{◌≡◌, ℕ, [], ◌∷◌, ◌++◌, ◌+◌, ◌≤◌, not};
    ghost use Rattle.std.specs.List.{position};
    ghost use Rattle.state.specs.Wires.{leads_to, towards};
    ghost use Rattle.state.specs.Making.{max_edges};
    ghost use Rattle.state.specs.EdgeList.{edge_of, entries as entries_of, passes, pending};

    // The most edges of a state: two of each block.
    pub const MOST: usize = 2 * GraphTable::BLOCKS;

    // No edges.
    pub fn new() -> Edges
        ensures { result.count ≡ 0 }
    {
        // Words of 0 alone, which are stored at once: no entry counts yet.
        let none = EdgeEntry {
            target: Target::Block(0),
            taken: 0,
            values: [0; MachineTable::REGISTERS],
        };
        Edges {
            list: [none; Edges::MOST],
            count: 0,
        }
    }

    // The edges of the state before go; their room is not cleared, which would cost more than most states.
    pub(crate) fn clear(&mut self)
        ensures { self.new.count ≡ 0 }
    {
        self.count = 0;
    }

    pub(crate) fn entries(&self) -> &[EdgeEntry]
        ensures { result.now ≡ entries_of self.now }
    {
        &self.list[..self.count]
    }

    // The place of the first that leads to block `x`.
    pub(crate) fn first_to(&self, x: u32) -> Option<usize>
        ensures { result ≡ position (passes (leads_to x)) (entries_of self.now) }
    {
        self.entries().iter().position(|entry| entry.leads_to(x))
    }

    // One more edge.
    #[inline]
    pub(crate) fn add(&mut self, entry: EdgeEntry)
        requires room { self.old.count + 1 ≤ max_edges }
        requires live { entry.target ≡ Target.Used → ⊥ }
        ensures count { self.new.count ≡ self.old.count + 1 }
        ensures added { (r : ℕ) → pending r self.new ≡ pending r self.old ++ (edge_of r entry ∷ []) }
    {
        self.list[self.count] = entry;
        self.count += 1;
    }

    // The edges to block `x`, of which the first stands at `first`, are used up.
    pub(crate) fn use_up(&mut self, first: Option<usize>, x: u32)
        requires { first ≡ position (passes (leads_to x)) (entries_of self.old) }
        ensures count { self.new.count ≡ self.old.count }
        ensures others { (r : ℕ) → pending r self.new ≡ towards (λ p. not (leads_to x p)) (pending r self.old) }
    {
        let Some(first) = first else {
            return;
        };
        // By index: of a struct with an invariant no field is lent as `&mut`.
        for i in first..self.count {
            self.list[i].target = self.list[i].target_past(x);
        }
    }
}
