// Judges a packed trace of any length from standard input: whether it is coherent and feasible, and if not, the first letter at which it is not so.
#![tactic(auto)]

use files::{Input, Source, Unread};
use std::io::Read;
use streaming::Stream;

// Reads to the end of the input, as much as the buffer holds at a time, and pushes what came. A proved loop has to end, and nothing says
// that the input does: it has so many turns that no run uses them up.
fn feed<R: Read>(source: &mut Source<R>) -> Result<Stream, Unread> {
    let mut stream = Stream::start();
    let mut buffer = io::large_buffer();
    for _ in 0..u64::MAX {
        let input = files::read(source, &mut buffer);
        stream.push_all(input.known(&buffer)?);
        if let Input::Ended(_) = input {
            return Ok(stream);
        }
    }
    Ok(stream)
}

// Each program has its own: every line names the crate that answers, and with closures for them no line would be left out.
fn main(rt: HostRuntime) {
    let mut input = Source::new(rt.stdin());
    match feed(&mut input) {
        Ok(stream) => {
            let mut lines = monitor_lines::line_space();
            let size = monitor_lines::write_lines(stream.finish(), &mut lines);
            files::print(&rt, &lines[..size]);
        }
        Err(Unread) => input.tell(&rt, b"read"),
    }
}
