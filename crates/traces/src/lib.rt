// Whole traces: the reader (SPEC 2.6, 11.2).
#![tactic(auto)]

ghost use Rattle.std.specs.Prelude.{◌≡◌, ◌≤◌, length};
ghost use Rattle.letters.specs.Editions.{first_edition};
ghost use Rattle.letters.specs.CodeAnswers.{letter_answer};
ghost use Rattle.letters.specs.Reasons.{as_answer};
ghost use Rattle.traces.specs.Reading.{beginning, letters_of, reading};
ghost use Rattle.traces.specs.ReadingParts.{reading_within, counted, letter_at};

use letters::limits::UNIT_BYTES;
use letters::reasons::{Reason, Refused};
use letters::words::{decode_header, decode_letter, word};
use letters::{Header, Letter};

/// The writer.
pub mod writer;
/// The reader that gives the letters too.
pub mod unpacker;

/// How many bytes an unpacked letter has: kind, function, target, first, second.
pub const UNPACKED_BYTES: usize = 5;

// More letters than a trace can have.
const NO_LIMIT: u64 = u64::MAX;

/// Puts questions 1, 2 and 3 to the bytes of a trace.
pub fn read_beginning(bytes: &[u8]) -> Result<Header, Refused>
    ensures { as_answer result ≡ beginning first_edition bytes.now }
{
    if bytes.len() < UNIT_BYTES {
        return Err(Reason::TraceTooShort.at(0));
    }
    if bytes.len() % UNIT_BYTES != 0 {
        return Err(Reason::TraceOddLength.at(0));
    }
    decode_header(word(bytes[0], bytes[1])).ok_or(Reason::HeaderMalformed.at(0))
}

// Reads the letters behind the header.
fn read_letters(h: Header, bytes: &[u8]) -> Result<(Header, u64), Refused>
    requires { first_edition.bytes ≤ length bytes.now }
    ensures { as_answer result ≡ counted (letters_of first_edition h bytes.now) }
{
    let (letters, _) = bytes[UNIT_BYTES..].as_chunks::<UNIT_BYTES>();
    for (i, &[high, low]) in letters.iter().enumerate() {
        let Some(_) = decode_letter(h, word(high, low)) else {
            return Err(Reason::LetterMalformed.at(i as u64 + 1));
        };
    }
    Ok((h, letters.len() as u64))
}

/// Reads a trace of at most `limit` letters: question 5 comes before the letters.
pub fn read_trace_within(bytes: &[u8], limit: u64) -> Result<(Header, u64), Refused>
    ensures { as_answer result ≡ counted (reading_within limit first_edition bytes.now) }
{
    let header = read_beginning(bytes)?;
    let letters = (bytes.len() / UNIT_BYTES - 1) as u64;
    if limit < letters {
        return Err(Reason::TraceTooLong.at(0));
    }
    read_letters(header, bytes)
}

/// Reads a trace of any length.
pub fn read_trace(bytes: &[u8]) -> Result<(Header, u64), Refused>
    ensures { as_answer result ≡ counted (reading first_edition bytes.now) }
{
    read_trace_within(bytes, NO_LIMIT)
}

/// Letter k, from 0, of the bytes of a trace with header `h`.
pub fn letter_at(h: Header, bytes: &[u8], k: usize) -> Option<Letter>
    ensures { letter_answer result ≡ letter_at first_edition h bytes.now k }
{
    let (units, _) = bytes.as_chunks::<UNIT_BYTES>();
    let (_, letters) = units.split_first()?;
    let &[high, low] = letters.get(k)?;
    decode_letter(h, word(high, low))
}
