// Long work shows on standard error how many turns were made.
use std::io::{IsTerminal, Print, Stderr};

// Turns from one time to the next.
const EVERY: u64 = 262144;

// The terminal that long work is to be shown on, if it is: standard error is one, and what the program prints, if it does, goes
// elsewhere.
pub fn is_watched(rt: HostRuntime, prints: bool) -> Option<Stderr> {
    let beside = prints & rt.stdout().is_terminal();
    if rt.stderr().is_terminal() & !beside {
        return Some(rt.stderr());
    }
    None
}

fn show_number(made: u64, watched: Option<Stderr>) {
    if made % EVERY != 0 {
        return;
    }
    if let Some(terminal) = watched {
        let _ = print!(terminal; "\r{made} steps");
    }
}

// Ends the line of the last number that was shown, if one was before the last turn.
fn end_line(made: u64, watched: Option<Stderr>) {
    if made <= EVERY {
        return;
    }
    if let Some(terminal) = watched {
        let _ = terminal.write_all(b"\n");
    }
}

// So many turns were made; behind the last of them the run goes on or not.
pub fn show(made: u64, goes_on: bool, watched: Option<Stderr>) {
    if goes_on {
        show_number(made, watched);
    } else {
        end_line(made, watched);
    }
}
