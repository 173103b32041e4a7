// Reads a packed trace from standard input and answers it by one line, or says on standard error why it could not.
#![tactic(auto)]

use files::{Source, Unread};

// Each program has its own: every line names the crate that answers, and with closures for them no line would be left out.
fn main(rt: HostRuntime) {
    let mut input = Source::new(rt.stdin());
    let mut line = model_lines::line_space();
    match model_lines::answer(&mut input, &mut line) {
        Ok(n) => files::print(&rt, &line[..n]),
        Err(Unread) => input.tell(&rt, b"read"),
    }
}
