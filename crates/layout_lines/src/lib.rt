// The lines that the program `layout` prints for the text of a macro: its print in the house layout, or `refused N at P` (SPEC 12.6).
#![tactic(auto)]

ghost use Rattle.std.specs.Prelude.{◌≡◌, length};
ghost use Rattle.files.specs.Lines.{known, Answers};
ghost use Rattle.layout_lines.specs.Prints.{most_layout_line_bytes, PrintsLayoutLines};
ghost use Rattle.layout_lines.specs.Answered.{AnswersLayoutInput};

use files::{Input, Source, Unread};
use layout_writer::LONGEST_PRINT;
use std::io::Read;
use syntax::LONGEST_TEXT;

// One byte more than the longest text that is taken.
const MOST_READ: usize = LONGEST_TEXT + 1;

/// The lines are never longer.
pub const MOST_BYTES: usize = LONGEST_PRINT;

/// Room for the lines of any text.
/// It stands for its clause, which says that the room is that of the longest lines as they are defined.
pub fn line_space() -> [u8; MOST_BYTES]
    ensures { most_layout_line_bytes ≡ length result }
{
    [0; MOST_BYTES]
}

/// Writes the lines for the text of a macro into the front of a lent buffer, and gives the number of their bytes, which is at most `MOST_BYTES`.
/// A buffer of fewer than `MOST_BYTES` bytes stays as it is, and 0 is given.
pub fn write_lines(text: &[u8], lines: &mut [u8]) -> usize
    ensures { PrintsLayoutLines text.now lines.old result lines.new }
{
    if lines.len() < MOST_BYTES {
        return 0;
    }
    match layout_writer::write_layout(text, lines) {
        Ok(n) => n,
        Err(refused) => report::write_refused(refused.reason.into(), refused.place, lines),
    }
}

// This and `answer` stay in each crate of lines: what differs is what is written and its contract, and one function for both would say neither.
/// Writes the lines of an input that was read into `text` into the front of a lent buffer: those of the bytes that it had, or of all bytes
/// where it filled `text`. Where a read failed nothing is printed, and the buffer stays as it is.
pub fn answer_to(text: &[u8], input: Input, lines: &mut [u8]) -> Result<usize, Unread>
    ensures { Answers PrintsLayoutLines (known input text.now) lines.old result lines.new }
{
    Ok(write_lines(input.known(text)?, lines))
}

/// Reads a text from a reader, and writes its lines into the front of a lent buffer. Of a text that is too long one byte more than
/// `LONGEST_TEXT` is read: it is refused for its length.
pub fn answer<R: Read>(source: &mut Source<R>, lines: &mut [u8]) -> Result<usize, Unread>
    ensures { AnswersLayoutInput lines.old result lines.new }
{
    let mut text = [0; MOST_READ];
    let input = files::read(source, &mut text);
    answer_to(&text, input, lines)
}
