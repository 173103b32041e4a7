// The lines that the verdict program prints for the text of a macro (SPEC 12.2).
#![tactic(auto)]

ghost use Rattle.std.specs.Prelude.{◌≡◌, length};
ghost use Rattle.report.specs.Bound.{Limited};
ghost use Rattle.verdict_lines.specs.Prints.{most_verdict_line_bytes, PrintsVerdictLines};
ghost use Rattle.files.specs.Lines.{known, Answers};
ghost use Rattle.verdict_lines.specs.Answered.{AnswersMacroInput};
ghost use Rattle.verdict_lines.specs.Reported.{reported as reportedOf, Reports};

use files::{Input, Source, Unread};
use letters::reasons::Refused;
use report::{Declared, ReportedRefusal, ReportedVerdict, WORD_VALUES};
use search::Verdict;
use std::io::Read;
use syntax::LONGEST_TEXT;

// One byte more than the longest text that is taken.
const MOST_READ: usize = LONGEST_TEXT + 1;

// The bytes of the table: room for 341 pairs.
const TABLE_BYTES: usize = 65536;

// The answer of a search over 341 pairs is shorter.
const ANSWER_BYTES: usize = 4096;

/// The lines are never longer.
pub const MOST_BYTES: usize = 32768;

/// Room for the lines of any text.
/// It stands for its clause, which says that the room is that of the longest lines as they are defined.
pub fn line_space() -> [u8; MOST_BYTES]
    ensures { most_verdict_line_bytes ≡ length result }
{
    [0; MOST_BYTES]
}

// The verdict as the report takes it.
fn reported(verdict: Result<Verdict, Refused>) -> Result<ReportedVerdict, ReportedRefusal>
    ensures { (result ≡ reportedOf verdict) × Limited result }
{
    match verdict {
        Ok(Verdict::Pass(pairs)) => Ok(ReportedVerdict::Pass(pairs as u64)),
        Ok(Verdict::Fail(pairs, letters)) => {
            Ok(ReportedVerdict::Fail(pairs as u64, (letters % WORD_VALUES) as u16))
        }
        Ok(Verdict::Incoherent(pairs, letters)) => {
            Ok(ReportedVerdict::Incoherent(pairs as u64, (letters % WORD_VALUES) as u16))
        }
        Err(refused) => Err(ReportedRefusal::from(refused)),
    }
}

// Writes the report of a verdict on a text, with the names that the text declares. The answer holds what the verdict shows.
fn write_verdict(
    text: &[u8],
    verdict: Result<Verdict, Refused>,
    answer: &[u8],
    lines: &mut [u8],
) -> usize
    ensures { Reports text.now verdict answer.now lines.old result lines.new }
{
    let read = syntax::read(text);
    let program = read.program;
    let registers = program.registers;
    let functions = program.functions;
    let header = program.header;
    let declared = Declared {
        registers,
        functions,
        header,
    };
    let shown = reported(verdict);
    report::write_report(declared, shown, answer, lines).unwrap_or(0)
}

/// Writes the lines for the text of a macro into the front of a lent buffer, and gives the number of their bytes, which is at most `MOST_BYTES`.
/// A buffer that is too small for them stays as it is, and 0 is given.
pub fn write_lines(text: &[u8], lines: &mut [u8]) -> usize
    ensures { PrintsVerdictLines text.now lines.old result lines.new }
{
    let mut table = [0; TABLE_BYTES];
    let mut answer = [0; ANSWER_BYTES];
    let verdict = search::judge_macro(text, &mut table, &mut answer);
    write_verdict(text, verdict, &answer, lines)
}

// This and `answer` stay in each crate of lines: what differs is what is written and its contract, and one function for both would say neither.
/// Writes the lines of an input that was read into `text` into the front of a lent buffer: those of the bytes that it had, or of all bytes
/// where it filled `text`. Where a read failed nothing is judged, and the buffer stays as it is.
pub fn answer_to(text: &[u8], input: Input, lines: &mut [u8]) -> Result<usize, Unread>
    ensures { Answers PrintsVerdictLines (known input text.now) lines.old result lines.new }
{
    Ok(write_lines(input.known(text)?, lines))
}

/// Reads a text from a reader, and writes its lines into the front of a lent buffer. Of a text that is too long one byte more than
/// `LONGEST_TEXT` is read: it is refused for its length.
pub fn answer<R: Read>(source: &mut Source<R>, lines: &mut [u8]) -> Result<usize, Unread>
    ensures { AnswersMacroInput lines.old result lines.new }
{
    let mut text = [0; MOST_READ];
    let input = files::read(source, &mut text);
    answer_to(&text, input, lines)
}
