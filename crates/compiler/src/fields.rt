// The numbers that an answer stands for: the refusal's number, 0 for success, and its other values.
ghost use Rattle.std.specs.Prelude.{◌≡◌};
ghost use Rattle.refusal.specs.declared.Refusal.{Refusal};
ghost use Rattle.runs.specs.Runs.{run_outcome, run_count, run_next, run_flag};
ghost use Rattle.capture.specs.Capture.{faulty_recording, faulty_line, shared_count, differs_flag, differing_cycle};
ghost use Rattle.cfg_text.specs.Read.{read_line};
ghost use Rattle.cfg_write.specs.Write.{write_length};
ghost use Rattle.touching.specs.Touching.{touched_field, first_state};
ghost use Rattle.compiler.specs.Answers.{answer_number, end_of, blocks_of};

use capture::{CaptureError, Comparison};
use cfg_text::ReadError;
use cfg_write::WriteError;
use fsmd::MachineTable;
use fsmd::run::MachineRun;
use refusal::Refusal;
use runs::RunEnd;

// What an operation answers where it is refused: a refusal, alone or with the place that it is about.
pub trait Refused {
    ghost refusal_in: { Self → Refusal };

    fn refusal(&self) -> Refusal
        ensures { result ≡ refusal_in self.now };
}

impl Refused for Refusal {
    ghost refusal_in = { λ e. e };

    fn refusal(&self) -> Refusal {
        *self
    }
}

impl Refused for ReadError {
    ghost refusal_in = { λ e. e.refusal };

    fn refusal(&self) -> Refusal {
        self.refusal
    }
}

impl Refused for WriteError {
    ghost refusal_in = { λ e. e.refusal };

    fn refusal(&self) -> Refusal {
        self.refusal
    }
}

impl Refused for CaptureError {
    ghost refusal_in = { λ e. e.refusal };

    fn refusal(&self) -> Refusal {
        self.refusal
    }
}

pub fn number<T, E: Refused>(answer: &Result<T, E>) -> u32
    ensures { result ≡ answer_number E.refusal_in answer.now }
{
    match answer {
        Ok(_) => 0,
        Err(e) => u32::from(e.refusal()),
    }
}

pub fn read_line(answer: Result<(), ReadError>) -> u32
    ensures { result ≡ read_line answer }
{
    answer.err().map_or(0, |e| e.line)
}

pub fn write_length(answer: Result<u32, WriteError>) -> u32
    ensures { result ≡ write_length answer }
{
    answer.unwrap_or_else(|e| e.length)
}

// 0 spent, 1 halted, 2 dry. A run without words is never dry.
pub fn run_outcome(answer: Result<RunEnd, Refusal>) -> u32
    ensures { result ≡ run_outcome answer }
{
    match answer {
        Ok(RunEnd::Halted(..)) => 1,
        Ok(RunEnd::Dry(..)) => 2,
        Ok(RunEnd::Spent(..)) | Err(_) => 0,
    }
}

pub fn run_count(answer: Result<RunEnd, Refusal>) -> u32
    ensures { result ≡ run_count answer }
{
    match answer {
        Ok(RunEnd::Halted(count, _) | RunEnd::Spent(count, ..) | RunEnd::Dry(count, ..)) => count,
        Err(_) => 0,
    }
}

// The next block or state; 255 where the run halted.
pub fn run_next(answer: Result<RunEnd, Refusal>) -> u32
    ensures { result ≡ run_next answer }
{
    match answer {
        Ok(RunEnd::Halted(..)) => RunEnd::NONE,
        Ok(RunEnd::Spent(_, next, _) | RunEnd::Dry(_, next, _)) => next,
        Err(_) => 0,
    }
}

// 1 where a sum went over, else 0.
pub fn run_flag(answer: Result<RunEnd, Refusal>) -> u32
    ensures { result ≡ run_flag answer }
{
    match answer {
        Ok(RunEnd::Halted(_, flag) | RunEnd::Spent(.., flag) | RunEnd::Dry(.., flag)) => {
            u32::from(flag)
        }
        Err(_) => 0,
    }
}

// How a machine's run ended.
pub fn machine_end(answer: Result<MachineRun, Refusal>) -> Result<RunEnd, Refusal>
    ensures { result ≡ end_of answer }
{
    answer.map(|run| run.end)
}

// The blocks that it counted.
pub fn machine_blocks(answer: Result<MachineRun, Refusal>) -> u64
    ensures { result ≡ blocks_of answer }
{
    answer.map_or(0, |run| run.blocks)
}

pub fn capture_recording(answer: Result<Comparison, CaptureError>) -> u32
    ensures { result ≡ faulty_recording answer }
{
    answer.err().map_or(0, |e| e.recording)
}

pub fn capture_line(answer: Result<Comparison, CaptureError>) -> u64
    ensures { result ≡ faulty_line answer }
{
    answer.err().map_or(0, |e| e.line)
}

pub fn capture_shared(answer: Result<Comparison, CaptureError>) -> u64
    ensures { result ≡ shared_count answer }
{
    answer.map_or(0, |comparison| comparison.shared)
}

// 1 where a cycle differs, else 0.
pub fn capture_differs(answer: Result<Comparison, CaptureError>) -> u32
    ensures { result ≡ differs_flag answer }
{
    answer.map_or(0, |comparison| u32::from(comparison.difference.is_some()))
}

// The first cycle that differs; 0 where none does.
pub fn capture_cycle(answer: Result<Comparison, CaptureError>) -> u32
    ensures { result ≡ differing_cycle answer }
{
    answer.map_or(0, |comparison| comparison.difference.unwrap_or(0))
}

// 1 where the state touches the register, else 0.
pub fn touched(answer: Result<bool, Refusal>) -> u32
    ensures { result ≡ touched_field answer }
{
    answer.map_or(0, u32::from)
}

// The state; 255 where there is none.
pub fn first_touching_state(answer: Result<Option<u32>, Refusal>) -> u32
    ensures { result ≡ first_state answer }
{
    answer.map_or(0, |state| state.unwrap_or(MachineTable::NONE))
}
