// Judges the packed trace in each file that an argument names, and prints a line for each: the file's name, and `judged` with the first
// incoherent and the first infeasible letter, 0 for none, or `refused` with number and place.
#![tactic(auto)]

use files::{Input, Source, Unread};
use std::fs::File;
use streaming::RunAnswer;
use streaming::byte_stream::judge_trace;

fn numbers(rt: &HostRuntime, name: &[u8], word: &[u8], first: u64, second: u64) {
    files::print(rt, name);
    files::print(rt, word);
    files::print_number(rt, first);
    files::print(rt, b" ");
    files::print_number(rt, second);
    files::print(rt, b"\n");
}

fn report(rt: &HostRuntime, name: &[u8], trace: &[u8]) {
    let verdict = judge_trace(trace);
    match verdict {
        RunAnswer::Judged(incoherent, infeasible) => numbers(
            rt,
            name,
            b" judged ",
            incoherent,
            infeasible,
        ),
        RunAnswer::Refused(number, place) => numbers(rt, name, b" refused ", number as u64, place),
    }
}

// A trace that fills the buffer may have more letters: it is not judged.
fn judge(rt: &HostRuntime, file: File, name: &[u8]) {
    let mut source = Source::new(file);
    let mut buffer = io::large_buffer();
    let input = files::read(&mut source, &mut buffer);
    match input.known(&buffer) {
        Ok(_) if input == Input::Full => files::say(rt, name, &"too long"),
        Ok(trace) => report(rt, name, trace),
        Err(Unread) => source.tell(rt, name),
    }
}

// Each program has its own: every line names the crate that answers, and with closures for them no line would be left out.
fn main(rt: HostRuntime) {
    files::open_arguments(&rt, |file, name| judge(&rt, file, name));
}
