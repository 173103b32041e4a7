// The lines of the verdict program (SPEC 12.2), written into a lent buffer.

#![tactic(auto)]

mod answer;
mod lines;

ghost use Rattle.std.specs.Prelude.{◌≡◌};
ghost use Rattle.letters.specs.Reasons.{number_of};
ghost use Rattle.text.specs.Appending.{Appended};
ghost use Rattle.report.specs.Lines.{refused_line};
ghost use Rattle.report.specs.Shown.{report_of, WroteText};
ghost use Rattle.report.specs.Bound.{Limited};

use letters::Header;
use letters::limits::{MOST_FUNCTIONS, MOST_REGISTERS};
use letters::reasons::Refused;
use text::Writer;

/// How many numbers a word of two bytes holds. A verdict has fewer letters.
pub const WORD_VALUES: usize = 65536;

/// What is to be printed.
#[derive(Clone, Copy)]
pub enum ReportedVerdict {
    /// Pass, with the number of pairs.
    Pass(u64),
    /// Incoherent, with the numbers of pairs and of letters in the answer.
    Incoherent(u64, u16),
    /// Fail, with the numbers of pairs and of letters in the answer.
    Fail(u64, u16),
}

/// A refusal as it is printed: a number and a place (0 unless said). The number is any; that of a reason is one of them.
#[derive(Clone, Copy, Debug, PartialEq, Eq)]
pub struct ReportedRefusal {
    /// The number.
    pub number: u8,
    /// The place: a letter's number, a place in a text, or 0.
    pub place: u64,
}

impl From<Refused> for ReportedRefusal {
    ghost from_gives = { λ r s. s ≡ record { number = number_of r.reason; place = r.place } };

    fn from(refused: Refused) -> ReportedRefusal {
        ReportedRefusal {
            number: u8::from(refused.reason),
            place: refused.place,
        }
    }
}

/// What a macro declares: the names of its registers and functions, and its header. A name is held as a number, its bytes the digits to base
/// `tokens::BYTE_VALUES` and the first byte the lowest.
#[derive(Clone, Copy)]
pub struct Declared {
    /// The names of the registers.
    pub registers: [u64; MOST_REGISTERS],
    /// The names of the functions.
    pub functions: [u64; MOST_FUNCTIONS],
    /// The header.
    pub header: Header,
}

// The verdict as it is, with what the types of its numbers say of them. It stands although it gives back what it takes: of a number in an enum the check
// knows the range in an arm alone (tried without it, and the proof did not close).
fn limited(
    verdict: Result<ReportedVerdict, ReportedRefusal>,
) -> Result<ReportedVerdict, ReportedRefusal>
    ensures same { result ≡ verdict }
    ensures limits { Limited result }
{
    match verdict {
        Ok(ReportedVerdict::Pass(pairs)) => Ok(ReportedVerdict::Pass(pairs)),
        Ok(ReportedVerdict::Incoherent(pairs, letters)) => {
            Ok(ReportedVerdict::Incoherent(pairs, letters))
        }
        Ok(ReportedVerdict::Fail(pairs, letters)) => Ok(ReportedVerdict::Fail(pairs, letters)),
        Err(ReportedRefusal { number, place }) => Err(ReportedRefusal { number, place }),
    }
}

/// Writes the report of a verdict or of a refusal, and gives how many bytes it has; where it does not fit the buffer nothing is written.
/// `answer` holds the execution as a packed trace, on fail its model directly behind it; what lies behind these is not read.
pub fn write_report(
    declared: Declared,
    verdict: Result<ReportedVerdict, ReportedRefusal>,
    answer: &[u8],
    out: &mut [u8],
) -> Option<usize>
    ensures { WroteText (report_of declared.registers declared.functions declared.header verdict answer.now) out.old out.new result }
{
    let verdict = limited(verdict);
    // The same writer counts the bytes first, on a buffer that has none.
    let size = declared.put_whole(verdict, answer, &mut []);
    if out.len() < size {
        return None;
    }
    Some(declared.put_whole(verdict, answer, out))
}

/// Writes the line of a refusal into the front of a lent buffer, as far as that goes, and gives the number of its bytes.
pub fn write_refused(number: u8, place: u64, out: &mut [u8]) -> usize
    ensures { Appended out.old 0 (refused_line number place) out.new result }
{
    let mut writer = Writer::new(out);
    writer.put_line(b"refused 4 at 5\n", [number as u64, place, 0, 0]);
    writer.at
}

/// Writes the line of a refusal by itself, as `write_report` writes it: where it does not fit the buffer nothing is written.
pub fn write_refusal(number: u8, place: u64, out: &mut [u8]) -> Option<usize>
    ensures { WroteText (refused_line number place) out.old out.new result }
{
    let size = write_refused(number, place, &mut []);
    if out.len() < size {
        return None;
    }
    Some(write_refused(number, place, out))
}
