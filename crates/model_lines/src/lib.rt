// Answers a packed trace by one line: `refused N at P`, `infeasible K`, or `model` and the packed model in hexadecimal.
#![tactic(auto)]

ghost use Rattle.std.specs.Prelude.{◌≡◌, ◌<◌, length, IfOk, OnErr};
ghost use Rattle.files.specs.Lines.{bytes, unread, Answers};
ghost use Rattle.text.specs.Appending.{Appended, PlaceInRange};
ghost use Rattle.model_lines.specs.Prints.{octet_text, hex_text, model_line, infeasible_line, most_model_line_bytes, PrintsModelLine};
ghost use Rattle.model_lines.specs.Written.{ModelWithin, WroteLine};
ghost use Rattle.model_lines.specs.Answered.{parity_of, left_of, known_long, known_trace, AnswersTraceInput};

use files::{Input, Source, Unread};
use letters::reasons::Refused;
use model_writer::Shown;
use std::io::Read;
use std::ops::ControlFlow;
use text::{FIELDS, Writer};

// Two bytes more than the longest trace that is taken, of 1,024 letters.
const MOST_READ: usize = 2052;

// The bytes of a long trace that stand for one of odd length.
const ODD_READ: usize = MOST_READ - 1;

// No model is longer.
const MOST_MODEL: usize = 5180;

/// No line is longer.
pub const MOST_BYTES: usize = 10367;

/// Room for the line of any trace.
/// It stands for its clause, which says that the room is that of the longest lines as they are defined.
pub fn line_space() -> [u8; MOST_BYTES]
    ensures { most_model_line_bytes ≡ length result }
{
    [0; MOST_BYTES]
}

// Appends the two digits of a byte.
fn put_octet(writer: &mut Writer, byte: u8)
    requires { PlaceInRange writer.old.at (octet_text byte) }
    ensures same_buffer { writer.new.out.ghost_name ≡ writer.old.out.ghost_name }
    ensures appended { Appended writer.old.out.now writer.old.at (octet_text byte) writer.new.out.now writer.new.at }
{
    let mut digits = [0; 16];
    io::hex(byte as u64, 2, &mut digits);
    writer.put_byte(digits[0]);
    writer.put_byte(digits[1]);
}

// Appends the digits of each byte.
fn put_hex(writer: &mut Writer, bytes: &[u8])
    requires { PlaceInRange writer.old.at (hex_text bytes.now) }
    ensures same_buffer { writer.new.out.ghost_name ≡ writer.old.out.ghost_name }
    ensures appended { Appended writer.old.out.now writer.old.at (hex_text bytes.now) writer.new.out.now writer.new.at }
{
    for byte in bytes {
        put_octet(writer, *byte);
    }
}

// Appends the line of a model.
fn put_model(writer: &mut Writer, bytes: &[u8])
    requires { PlaceInRange writer.old.at (model_line bytes.now) }
    ensures same_buffer { writer.new.out.ghost_name ≡ writer.old.out.ghost_name }
    ensures appended { Appended writer.old.out.now writer.old.at (model_line bytes.now) writer.new.out.now writer.new.at }
{
    writer.put_line(b"model ", [0; FIELDS]);
    put_hex(writer, bytes);
    writer.put_line(b"\n", [0; FIELDS]);
}

// Writes the line of a model.
fn write_model(bytes: &[u8], out: &mut [u8]) -> usize
    requires { PlaceInRange 0 (model_line bytes.now) }
    ensures { Appended out.old 0 (model_line bytes.now) out.new result }
{
    let mut writer = Writer::new(out);
    put_model(&mut writer, bytes);
    writer.at
}

// Writes the line of an infeasible letter.
fn write_infeasible(letter: u64, out: &mut [u8]) -> usize
    ensures { Appended out.old 0 (infeasible_line letter) out.new result }
{
    let mut writer = Writer::new(out);
    writer.put_line(b"infeasible 4\n", [letter, 0, 0, 0]);
    writer.at
}

// Writes the line of an answer, whose model, if there is one, is in the front of `model`.
fn write_answer(answer: Result<Shown, Refused>, model: &[u8], out: &mut [u8]) -> usize
    requires { ModelWithin answer (length model.now) }
    ensures { WroteLine out.old answer model.now result out.new }
{
    match answer {
        Ok(Shown::Model(n)) => write_model(&model[..n], out),
        Ok(Shown::Infeasible(letter)) => write_infeasible(letter, out),
        Err(refused) => report::write_refused(u8::from(refused.reason), refused.place, out),
    }
}

/// Writes the line of a packed trace into the front of a lent buffer, as far as that goes, and gives the number of the line's bytes,
/// which is at most `MOST_BYTES`.
pub fn write_line(trace: &[u8], out: &mut [u8]) -> usize
    ensures { PrintsModelLine trace.now out.old result out.new }
{
    let mut model = [0; MOST_MODEL];
    let answer = model_writer::show(trace, &mut model);
    write_answer(answer, &model, out)
}

/// The number of a trace's bytes behind those that fill the buffer.
#[derive(Clone, Copy, PartialEq, Eq)]
pub enum Parity {
    /// It is even.
    Even,
    /// It is odd.
    Odd,
}

impl Parity {
    // That of n.
    fn of(n: usize) -> Parity
        ensures { result ≡ parity_of n }
    {
        if n % 2 == 0 {
            Parity::Even
        } else {
            Parity::Odd
        }
    }
}

// What follows a piece, if all before it have an even number of bytes: there is more to read; or it is over, and the parity of what was
// read is known, or a read has failed.
fn left_after(input: Input) -> ControlFlow<Result<Parity, Unread>>
    ensures { result ≡ left_of input }
{
    match input {
        Input::Ended(n) => ControlFlow::Break(Ok(Parity::of(n))),
        Input::Full => ControlFlow::Continue(()),
        Input::Failed(_) => ControlFlow::Break(Err(Unread)),
    }
}

// Reads on to the end of the input. All pieces but the last have an even number of bytes. A proved loop has to end, and nothing says
// that the input does: it has so many turns that no run uses them up. What is left is for the system to say, so there
// is nothing to ensure.
fn read_rest<R: Read>(source: &mut Source<R>) -> Result<Parity, Unread> {
    let mut piece = io::large_buffer();
    for _ in 0..u64::MAX {
        let input = files::read(source, &mut piece);
        if let ControlFlow::Break(rest) = left_after(input) {
            return rest;
        }
    }
    Err(Unread)
}

// What is behind the bytes that were read. Only where they fill the buffer there may be something.
fn rest_of<R: Read>(source: &mut Source<R>, input: Input) -> Result<Parity, Unread> {
    match input {
        Input::Ended(_) => Ok(Parity::Even),
        Input::Full => read_rest(source),
        Input::Failed(_) => Err(Unread),
    }
}

// What there is to judge of a trace that fills the buffer: question 2 comes before question 5, and 5 before the letters.
fn known_of_long(trace: &[u8], rest: Result<Parity, Unread>) -> Result<&[u8], Unread>
    ensures read { IfOk result (λ s. bytes s.now ≡ known_long rest trace.now) }
    ensures failed { OnErr result (unread ≡ known_long rest trace.now) }
{
    match rest? {
        Parity::Even => Ok(trace),
        Parity::Odd => Ok(&trace[..ODD_READ.min(trace.len())]),
    }
}

// This and `answer` stay in each crate of lines: what differs is what is written and its contract, and one function for both would say neither.
/// Writes the line of an input that was read into `trace` into the front of a lent buffer: that of the bytes that it had, or, where it
/// filled `trace`, that of all its bytes, or of all but the last if `rest` is odd. Where a read failed nothing is judged, and the buffer
/// stays as it is.
pub fn answer_to(
    trace: &[u8],
    input: Input,
    rest: Result<Parity, Unread>,
    line: &mut [u8],
) -> Result<usize, Unread>
    ensures { Answers PrintsModelLine (known_trace input rest trace.now) line.old result line.new }
{
    let known = match input {
        Input::Full => known_of_long(trace, rest)?,
        Input::Ended(_) | Input::Failed(_) => input.known(trace)?,
    };
    Ok(write_line(known, line))
}

/// Reads a trace from a reader, and writes its line into the front of a lent buffer. Of a trace of more than 2,050 bytes only its header and
/// the parity of its length matter.
pub fn answer<R: Read>(source: &mut Source<R>, line: &mut [u8]) -> Result<usize, Unread>
    ensures { AnswersTraceInput line.old result line.new }
{
    let mut trace = [0; MOST_READ];
    let input = files::read(source, &mut trace);
    let rest = rest_of(source, input);
    answer_to(&trace, input, rest, line)
}
