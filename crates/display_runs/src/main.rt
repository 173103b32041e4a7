// Shows the packed trace in each file that an argument names: the file's name, and the lines of the program `display`.
#![tactic(auto)]

use display_lines::NotJudged;
use files::Source;
use std::fs::File;

// Each program has its own: every line names the crate that answers, and with closures for them no line would be left out.
fn answer(rt: &HostRuntime, file: File, name: &[u8]) {
    let mut source = Source::new(file);
    let mut lines = display_lines::line_space();
    match display_lines::answer(&mut source, &mut lines) {
        Ok(n) => files::print_behind(rt, name, b":\n", &lines[..n]),
        Err(NotJudged::TooLong) => files::say(rt, name, &"too long"),
        Err(NotJudged::Unread) => source.tell(rt, name),
    }
}

fn main(rt: HostRuntime) {
    files::open_arguments(&rt, |file, name| answer(&rt, file, name));
}
