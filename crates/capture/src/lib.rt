// Two recordings of one run, compared: the array's capture and the model's run, say. Both texts are read from front to back and
// merged by their cycles; nothing is stored.
#![tactic(auto)]

pub mod recording; // recording.rt: one recording

ghost use Rattle.std.specs.Prelude.{◌≡◌};
ghost use Rattle.runs.specs.Lists.{same};
ghost use Rattle.capture.specs.Capture.{in_range, compare_captures};
ghost use Rattle.capture.specs.Steps.{position_behind, Passed, Within, Follows, noted, MovedOn, Ready, AfterStep, judged_at};

use cfg::GraphTable;
use recording::{Line, Position};
use refusal::Refusal;

// How many cycles both recordings hold, and the first of them where state or registers differ.
#[derive(Clone, Copy, Debug, PartialEq, Eq)]
pub struct Comparison {
    pub shared: u64,
    pub difference: Option<u32>,
}

// Why two recordings are refused, the recording and its line; both are 0 where R is not 1 to 16, as C is given them (gutkavu_compare_captures).
#[derive(Clone, Copy, Debug, PartialEq, Eq)]
pub struct CaptureError {
    pub refusal: Refusal,
    pub recording: u32,
    pub line: u64,
}

// A position in a recording, and its next line, if there is one without a fault.
#[derive(Clone, Copy)]
struct Head {
    position: Position,
    line: Option<Line>,
}

// Where the merge stands in both recordings, and what it has found.
#[derive(Clone, Copy)]
struct Merge {
    first: Head,
    second: Head,
    found: Comparison,
}

// The first difference so far, where both recordings hold the cycle, in these lines. A number without leading zeros has one writing, so
// equal words are equal bytes.
fn first_difference(found: Option<u32>, cycle: u32, one: &[u8], two: &[u8]) -> Option<u32>
    ensures { result ≡ noted found cycle (same one.now two.now) }
{
    if found.is_some() {
        return found;
    }
    if one == two { None } else { Some(cycle) }
}

impl Head {
    #[tactic(auto, using(crate::proofs::Positions::follows))]
    fn at(registers: u32, text: &[u8], position: Position) -> Head
        requires { Within text.now position }
        ensures position_value { result.position ≡ position }
        ensures line_value { Follows registers text.now position result.line }
    {
        Head {
            position,
            line: position.advance(registers, text).ok().flatten(),
        }
    }

    // Behind the next line.
    fn behind(self, registers: u32, text: &[u8], read: Line) -> Head
        requires { Passed registers text.now self.position read.cycle (position_behind self.position read.cycle read.next) × Within text.now self.position }
        ensures { MovedOn registers text.now self.position read.cycle read.next result }
    {
        Head::at(registers, text, self.position.behind(read))
    }
}

// One step: over the lower of both next cycles, or over both where they are the same; none where one of the recordings goes on no more.
fn merge_next(registers: u32, first: &[u8], second: &[u8], m: Merge) -> Option<Merge>
    requires { Ready registers first.now second.now m }
    ensures { AfterStep registers first.now second.now m result }
{
    let one = m.first;
    let two = m.second;
    let x = one.line?;
    let y = two.line?;
    if x.cycle < y.cycle {
        return Some(Merge {
            first: one.behind(registers, first, x),
            ..m
        });
    }
    if y.cycle < x.cycle {
        return Some(Merge {
            second: two.behind(registers, second, y),
            ..m
        });
    }
    let found = m.found;
    let a = &first[one.position.at..x.next];
    let b = &second[two.position.at..y.next];
    Some(Merge {
        first: one.behind(registers, first, x),
        second: two.behind(registers, second, y),
        found: Comparison {
            shared: found.shared + 1,
            difference: first_difference(found.difference, x.cycle, a, b),
        },
    })
}

// The faults that are left, the first recording's first; else what the merge has found.
fn finish(registers: u32, first: &[u8], second: &[u8], m: Merge) -> Result<Comparison, CaptureError>
    requires { Ready registers first.now second.now m }
    ensures { result ≡ judged_at registers first.now second.now m }
{
    if let Some(fault) = recording::first_fault(registers, first, m.first.position) {
        return Err(CaptureError {
            refusal: fault.refusal,
            recording: 1,
            line: fault.line,
        });
    }
    if let Some(fault) = recording::first_fault(registers, second, m.second.position) {
        return Err(CaptureError {
            refusal: fault.refusal,
            recording: 2,
            line: fault.line,
        });
    }
    Ok(m.found)
}

// R is 1 to 16.
fn in_range(registers: u32) -> bool
    ensures { result ≡ in_range registers }
{
    (1..=GraphTable::REGISTERS).contains(&(registers as usize))
}

// "Answer the number of cycles that both hold and the first of them where state or registers differ, or none."
pub fn compare_captures(
    registers: u32,
    first: &[u8],
    second: &[u8],
) -> Result<Comparison, CaptureError>
    ensures { result ≡ compare_captures registers first.now second.now }
{
    if !in_range(registers) {
        return Err(CaptureError {
            refusal: Refusal::BadRecording,
            recording: 0,
            line: 0,
        });
    }
    let mut m = Merge {
        first: Head::at(registers, first, Position::START),
        second: Head::at(registers, second, Position::START),
        found: Comparison {
            shared: 0,
            difference: None,
        },
    };
    while let Some(next) = merge_next(registers, first, second, m) {
        m = next;
    }
    finish(registers, first, second, m)
}
