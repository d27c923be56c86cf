// Prints the listing of the graph text on standard input; says on standard error where reading or writing failed.
#![tactic(auto)]

mod input; // input.rt: standard input to its end

// The listing of a text to standard output, and whether it was written.
fn print(rt: &impl Print, text: &[u8]) -> bool {
    let mut out = [0u8; listing::LONGEST];
    let Ok(count) = listing::list(text, &mut out) else {
        // Never: no listing is longer than the buffer, as `list` promises.
        return false;
    };
    rt.write_all(&out[..count as usize]).is_ok()
}

fn main(rt: HostRuntime) {
    // Longer than any text that is accepted: what has no room in it makes no difference.
    let mut buffer = [0u8; 65536];
    let Ok(n) = input::read(&mut rt.stdin(), &mut buffer) else {
        let _ = rt.eprintln("list: standard input cannot be read");
        return;
    };
    if !print(&rt, &buffer[..n]) {
        let _ = rt.eprintln("list: standard output cannot be written");
    }
}
