// Why an operation refuses, and the number by which C and the answers of the programs know it.
#![tactic(auto)]

ghost use Rattle.std.specs.Prelude.{◌≡◌};
ghost use Rattle.refusal.specs.Refusal.{number};

#[derive(Clone, Copy, Debug, PartialEq, Eq)]
pub enum Refusal {
    // A text of more bytes than any graph needs.
    LongText = 1,
    // A line of no form.
    NoForm = 2,
    // A line, or the text's end, where another line is due.
    NotDue = 3,
    // A register that the graph does not have.
    NoRegister = 4,
    // A target that the graph does not have.
    NoTarget = 5,
    // A graph table that is not admitted.
    BadGraph = 6,
    // A lent table or register buffer that is too short.
    ShortBuffer = 7,
    // An output that is too short for the text.
    ShortOutput = 8,
    // A start block or a state that there is not.
    NoStart = 9,
    // A machine table that is not admitted.
    BadMachine = 10,
    // Starters that do not fit the graph and the start.
    BadStarters = 11,
    // No words, where some are read.
    NoWords = 12,
    // A lowest word above the highest.
    CrossedBounds = 13,
    // A recording's line of no form, or a number of registers that no graph has.
    BadRecording = 17,
    // A cycle of a recording that is not above the one before.
    BadCycle = 18,
}

impl From<Refusal> for u32 {
    ghost from_gives = { λ refusal n. n ≡ number refusal };

    fn from(refusal: Refusal) -> u32 {
        refusal as u32
    }
}
