// Answers recorded cases from standard input, one line a case: each operation's number and values, and digests of the buffers.
// Both formats stand in reference/README.md.
#![tactic(auto)]

mod input; // input.rt: a window of the stream
mod steps; // steps.rt: the operations of a case

use cases::line;
use cases::stream::{Case, Stream};
use input::Window;
use std::io::Read;

// A case's answer to standard output, and whether it was written.
fn print(rt: &impl Print, case: Case) -> bool {
    let fields = steps::answer(case);
    let mut out = [0u8; 539];
    let n = line::put_line(&mut out, &fields);
    rt.write_all(&out[..n]).is_ok()
}

// One case more, and whether there may be others: not at the end, nor where something is wrong.
fn step(rt: &(impl Print + Eprint), reader: &mut impl Read, window: &mut Window) -> bool {
    window.refill(reader);
    let mut stream = Stream {
        rest: window.bytes(),
    };
    if stream.rest.is_empty() {
        return false;
    }
    let case = stream.case();
    let left = stream.rest.len();
    let answered = case.is_some_and(|case| print(rt, case));
    if answered {
        window.keep(left);
    } else {
        let _ = rt.eprintln("replay: a damaged case, or no output");
    }
    answered
}

fn main(rt: HostRuntime) {
    let mut window = Window::new();
    let mut reader = rt.stdin();
    // Nothing says that the input ends: the count is one that no run uses up.
    for _ in 0..u64::MAX {
        if !step(&rt, &mut reader, &mut window) {
            break;
        }
    }
}
