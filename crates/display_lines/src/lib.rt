// The lines that the program `display` prints for a packed trace: one before the first letter and one after each, `K SAID N WORD`; or `refused N at P`
// (SPEC 12.7).
#![tactic(auto)]

ghost use Rattle.std.specs.Prelude.{◌≡◌, ◌+◌, ◌/◌, ◌<◌, ◌≤◌, length, drop};
ghost use Rattle.io.specs.Digits.{last_digits};
ghost use Rattle.tokens.specs.Bytes.{spelling};
ghost use Rattle.letters.specs.Editions.{first_edition};
ghost use Rattle.text.specs.Appending.{Appended};
ghost use Rattle.files.specs.Lines.{known};
ghost use Rattle.display_lines.specs.Lines.{fresh_word, hex_base};
ghost use Rattle.display_lines.specs.Display.{monitor_line, judged_line, lines_after, trace_lines};
ghost use Rattle.display_lines.specs.Prints.{most_trace_bytes, longest_line, most_display_lines, most_display_line_bytes, DisplaysTrace, DisplaysKnown};
ghost use Rattle.display_lines.specs.Fields.{name_digits, StateFields};
ghost use Rattle.display_lines.specs.Answered.{DisplaysInput};

use files::{Input, Source, Unread};
use letters::limits::UNIT_BYTES;
use letters::words::word;
use std::io::Read;
use streaming::Monitor;
use text::{FIELDS, Writer};
use tokens::BYTE_VALUES;
use traces::read_trace;
use unequal_flags::unequal_word;
use window::Window;

/// A longer trace is not judged.
pub const MOST_TRACE_BYTES: usize = 65536;

// One byte more than the longest trace that is judged.
const MOST_READ: usize = MOST_TRACE_BYTES + 1;

// No line is longer: five digits, `incoherent`, three digits, sixteen digits, three blanks and a line feed.
const LONGEST_LINE: usize = 38;

// A line for the header and one for each letter.
const MOST_LINES: usize = MOST_TRACE_BYTES / UNIT_BYTES;

/// The lines are never longer.
pub const MOST_BYTES: usize = MOST_LINES * LONGEST_LINE;

/// Why nothing of a trace is judged.
#[derive(Clone, Copy, PartialEq, Eq)]
pub enum NotJudged {
    /// It has more than `MOST_TRACE_BYTES` bytes.
    TooLong,
    /// It could not be read to its end.
    Unread,
}

impl From<Unread> for NotJudged {
    ghost use Rattle.display_lines.specs.declared.NotJudged.{NotJudged};

    ghost from_gives = { λ _ e. e ≡ NotJudged.Unread };

    fn from(_error: Unread) -> NotJudged {
        NotJudged::Unread
    }
}

/// Room for the lines of any trace.
/// It stands for its clause, which says that the room is that of the longest lines as they are defined.
pub fn line_space() -> [u8; MOST_BYTES]
    ensures { most_display_line_bytes ≡ length result }
{
    [0; MOST_BYTES]
}

// How many hexadecimal digits a word has; how many of them a name has; and where those of a word's first half begin.
const WORD_DIGITS: usize = 16;

const NAME_DIGITS: usize = 8;

const HALF_WORD: u64 = 4294967296;

// The last digits of a number, as a name that has these bytes.
fn digit_name(number: u64) -> u64
    ensures { result ≡ spelling (last_digits hex_base name_digits number) }
{
    let mut digits = [0; WORD_DIGITS];
    io::hex(number, WORD_DIGITS, &mut digits);
    let mut name: u64 = 0;
    for i in (NAME_DIGITS..WORD_DIGITS).rev() {
        name = digits[i] as u64 + BYTE_VALUES * name;
    }
    name
}

// The fields of a line: how many letters came, how many classes there are, and two names, the digits of the unequal pairs by the word.
fn state_fields(letters: u64, w: Window) -> [u64; FIELDS]
    ensures { StateFields letters w result }
{
    let count = w.class_count();
    let pairs = unequal_word(w);
    [
        letters,
        count as u64,
        digit_name(pairs / HALF_WORD),
        digit_name(pairs),
    ]
}

// Appends the line before the first letter.
fn put_fresh_line(writer: &mut Writer, m: Monitor)
    requires { writer.old.at ≡ 0 }
    ensures same_buffer { writer.new.out.ghost_name ≡ writer.old.out.ghost_name }
    ensures appended { Appended writer.old.out.now writer.old.at (monitor_line fresh_word 0 m) writer.new.out.now writer.new.at }
    ensures few { writer.new.at ≤ longest_line }
{
    writer.put_line(b"4 fresh 5 23\n", state_fields(0, m.window));
}

// Appends the line after a letter.
fn put_judged_line(writer: &mut Writer, letters: u64, m: Monitor)
    requires { (writer.old.at ≤ most_display_line_bytes) × (letters < most_display_lines) }
    ensures same_buffer { writer.new.out.ghost_name ≡ writer.old.out.ghost_name }
    ensures appended { Appended writer.old.out.now writer.old.at (judged_line letters m) writer.new.out.now writer.new.at }
    ensures few { writer.new.at ≤ writer.old.at + longest_line }
{
    let fields = state_fields(letters, m.window);
    if m.running {
        writer.put_line(b"4 coherent 5 23\n", fields);
    } else {
        writer.put_line(b"4 incoherent 5 23\n", fields);
    }
}

// Appends a line for each letter behind the header.
fn put_judged_lines(writer: &mut Writer, monitor: Monitor, bytes: &[u8])
    requires { (writer.old.at ≤ longest_line) × (first_edition.bytes ≤ length bytes.now) × (length bytes.now ≤ most_trace_bytes) }
    ensures same_buffer { writer.new.out.ghost_name ≡ writer.old.out.ghost_name }
    ensures appended { Appended writer.old.out.now writer.old.at (lines_after 0 monitor (drop first_edition.bytes bytes.now))
        writer.new.out.now writer.new.at }
    ensures few { writer.new.at ≤ most_display_line_bytes }
{
    let mut m = monitor;
    for number in 1..bytes.len() / UNIT_BYTES {
        let at = UNIT_BYTES * number;
        // A letter that is refused leaves the monitor as it is.
        let _ = m.step(word(bytes[at], bytes[at + 1]));
        put_judged_line(writer, number as u64, m);
    }
}

// Writes the lines of a trace that is well formed.
fn write_trace_lines(bytes: &[u8], out: &mut [u8]) -> usize
    requires { (first_edition.bytes ≤ length bytes.now) × (length bytes.now ≤ most_trace_bytes) }
    ensures appended { Appended out.old 0 (trace_lines bytes.now) out.new result }
    ensures few { result ≤ most_display_line_bytes }
{
    let monitor = Monitor::start(word(bytes[0], bytes[1])).unwrap_or(Monitor::idle());
    let mut writer = Writer::new(out);
    put_fresh_line(&mut writer, monitor);
    put_judged_lines(&mut writer, monitor, bytes);
    writer.at
}

/// Writes the lines for a packed trace into the front of a lent buffer, and gives the number of their bytes, which is at most `MOST_BYTES`. A buffer of
/// fewer than `MOST_BYTES` bytes stays as it is, and 0 is given; and so does any where the trace is too long. All is read before anything is judged.
pub fn write_lines(trace: &[u8], lines: &mut [u8]) -> Result<usize, NotJudged>
    ensures { DisplaysTrace trace.now lines.old result lines.new }
{
    if MOST_TRACE_BYTES < trace.len() {
        return Err(NotJudged::TooLong);
    }
    if lines.len() < MOST_BYTES {
        return Ok(0);
    }
    let end = match read_trace(trace) {
        Ok(_) => write_trace_lines(trace, lines),
        Err(refused) => report::write_refused(u8::from(refused.reason), refused.place, lines),
    };
    Ok(end)
}

// This and `answer` stay in each crate of lines: what differs is what is written and its contract, and one function for both would say neither.
/// Writes the lines of an input that was read into `trace` into the front of a lent buffer: those of the bytes that it had, or of all bytes
/// where it filled `trace`. Where a read failed nothing is judged, and the buffer stays as it is.
pub fn answer_to(trace: &[u8], input: Input, lines: &mut [u8]) -> Result<usize, NotJudged>
    ensures { DisplaysKnown (known input trace.now) lines.old result lines.new }
{
    write_lines(input.known(trace)?, lines)
}

/// Reads a trace from a reader, and writes its lines into the front of a lent buffer. Of a trace that is too long one byte more than
/// `MOST_TRACE_BYTES` is read, and nothing is judged.
pub fn answer<R: Read>(source: &mut Source<R>, lines: &mut [u8]) -> Result<usize, NotJudged>
    ensures { DisplaysInput lines.old result lines.new }
{
    let mut trace = [0; MOST_READ];
    let input = files::read(source, &mut trace);
    answer_to(&trace, input, lines)
}
