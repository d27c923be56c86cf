// One recording: its lines, read from front to back, and its first fault.
ghost use Rattle.std.specs.Prelude.{◌≡◌, true, ◌-◌, ◌<◌, ◌^◌, drop};
ghost use Rattle.delimited.specs.Cursor.{stops, field_at};
ghost use Rattle.capture.specs.Capture.{as_word};
ghost use Rattle.capture.specs.Steps.{scan_at, Within, Advanced, position_behind, fault_at};

use delimited::Field;
use refusal::Refusal;

// Why a recording is refused, and its line.
#[derive(Clone, Copy, Debug, PartialEq, Eq)]
pub struct Fault {
    pub refusal: Refusal,
    pub line: u64,
}

// A line's cycle and where the next line begins.
#[derive(Clone, Copy, Debug, PartialEq, Eq)]
pub struct Line {
    pub cycle: u32,
    pub next: usize,
}

// Where the next line begins, its number, and the least cycle that is above that of the line before.
#[derive(Clone, Copy, Debug, PartialEq, Eq)]
pub struct Position {
    pub at: usize,
    pub line: u64,
    pub least: u64,
}

// Text and place apart, as in delimited, whose definitions speak of both.
// 0 to 4294967295.
fn word_at(text: &[u8], at: usize, end: u8) -> Option<Field>
    requires { stops end ≡ true }
    ensures { result ≡ field_at as_word end at (drop at text.now) }
{
    delimited::at_most(text, at, end, u32::MAX)
}

// The cycle, then the state and all registers but the last, each with a comma behind it, then the last register.
fn line_at(registers: u32, text: &[u8], at: usize) -> Option<Line>
    ensures { result ≡ scan_at registers at (drop at text.now) }
{
    let cycle = word_at(text, at, b',')?;
    let mut p = cycle.next;
    for _ in 0..registers {
        p = word_at(text, p, b',')?.next;
    }
    let last = word_at(text, p, b'\n')?;
    Some(Line {
        cycle: cycle.value,
        next: last.next,
    })
}

// Registers and text are not in it: they do not change, and a position without them is a plain value.
impl Position {
    // Before the first line.
    pub const START: Position = Position {
        at: 0,
        line: 1,
        least: 0,
    };

    // The next line, or none at the end. In place at each call: else the line would go by way of memory.
    #[inline(always)]
    pub fn advance(self, registers: u32, text: &[u8]) -> Result<Option<Line>, Fault>
        requires { Within text.now self }
        ensures { Advanced registers text.now self result }
    {
        if text.len() <= self.at {
            return Ok(None);
        }
        let Some(read) = line_at(registers, text, self.at) else {
            return Err(Fault {
                refusal: Refusal::BadRecording,
                line: self.line,
            });
        };
        if u64::from(read.cycle) < self.least {
            return Err(Fault {
                refusal: Refusal::BadCycle,
                line: self.line,
            });
        }
        Ok(Some(read))
    }

    // The position behind a line.
    pub fn behind(self, read: Line) -> Position
        requires { self.line < 2 ^ 64 - 1 }
        ensures { result ≡ position_behind self read.cycle read.next }
    {
        Position {
            at: read.next,
            line: self.line + 1,
            least: u64::from(read.cycle) + 1,
        }
    }
}

// The first fault of a recording from a position on.
pub fn first_fault(registers: u32, text: &[u8], p: Position) -> Option<Fault>
    requires { Within text.now p }
    ensures { result ≡ fault_at registers text.now p }
{
    let mut q = p;
    // A loop and no iterator: the fault that ends the lines is the answer, and an iterator would hand out lines alone.
    loop {
        match q.advance(registers, text) {
            Ok(Some(read)) => q = q.behind(read),
            Ok(None) => return None,
            Err(fault) => return Some(fault),
        }
    }
}
