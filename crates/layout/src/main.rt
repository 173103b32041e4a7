// Reads a macro from standard input and prints it in the house layout, or says on standard error why it could not.
#![tactic(auto)]

use files::{Source, Unread};

// Each program has its own: every line names the crate that answers, and with closures for them no line would be left out.
fn main(rt: HostRuntime) {
    let mut input = Source::new(rt.stdin());
    let mut lines = layout_lines::line_space();
    match layout_lines::answer(&mut input, &mut lines) {
        Ok(n) => files::print(&rt, &lines[..n]),
        Err(Unread) => input.tell(&rt, b"read"),
    }
}
