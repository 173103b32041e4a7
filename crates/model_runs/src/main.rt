// Answers each packed trace that an argument names, a line for each: the name and the answer.
#![tactic(auto)]

use files::{Source, Unread};
use std::fs::File;

// Each program has its own: every line names the crate that answers, and with closures for them no line would be left out.
fn answer(rt: &HostRuntime, file: File, name: &[u8]) {
    let mut source = Source::new(file);
    let mut line = model_lines::line_space();
    match model_lines::answer(&mut source, &mut line) {
        Ok(n) => files::print_behind(rt, name, b": ", &line[..n]),
        Err(Unread) => source.tell(rt, name),
    }
}

fn main(rt: HostRuntime) {
    files::open_arguments(&rt, |file, name| answer(&rt, file, name));
}
