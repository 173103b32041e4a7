// Reads a packed trace from standard input and prints a line before its first letter and one after each, or says on standard error why it could not.
#![tactic(auto)]

use display_lines::NotJudged;
use files::Source;

// Each program has its own: every line names the crate that answers, and with closures for them no line would be left out.
fn main(rt: HostRuntime) {
    let mut input = Source::new(rt.stdin());
    let mut lines = display_lines::line_space();
    match display_lines::answer(&mut input, &mut lines) {
        Ok(n) => files::print(&rt, &lines[..n]),
        Err(NotJudged::TooLong) => files::say(&rt, b"trace", &"too long"),
        Err(NotJudged::Unread) => input.tell(&rt, b"read"),
    }
}
