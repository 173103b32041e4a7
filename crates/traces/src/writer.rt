// Traces: the writer, from a header and unpacked letters. An unpacked letter has five bytes: kind, function, target, first, second, and those that
// it does not use are 0, the second argument of a one-argument function included.
ghost use Rattle.std.specs.Prelude.{◌≡◌, ◌&&◌, ◌+◌, ◌*◌, ◌≤◌, eqb, length, take, drop};
ghost use Rattle.letters.specs.Editions.{first_edition};
ghost use Rattle.letters.specs.CodeAnswers.{letter_answer, letter_word_answer};
ghost use Rattle.letters.specs.Answers.{on_answer, value, refusal};
ghost use Rattle.letters.specs.Reasons.{as_answer};
ghost use Rattle.traces.specs.ReadingParts.{counted};
ghost use Rattle.traces.specs.Reading.{letters_from};
ghost use Rattle.traces.specs.Writing.{unpacked_letter_bytes, plain_test, plain_letter, unpack_letter, parts_of_letters, unpacking, unpacked_parts, WroteTrace};
ghost use Rattle.letters.specs.Putting.{put_word};
ghost use Rattle.traces.specs.Putting.{word_in, put_words};

use super::UNPACKED_BYTES;
use letters::limits::UNIT_BYTES;
use letters::reasons::{Reason, Refused};
use letters::words::{
    APPLY, COPY, EQUAL, UNEQUAL, encode_header, encode_letter, letter_by, letter_fits, put_word,
    takes_two,
};
use letters::{Header, Letter};

// Whether the fields that a letter of this kind does not use are 0, the second argument of a one-argument function included.
#[tactic(auto, unfolding(crate::specs::Writing::plain_test))]
fn unused_are_zero(h: Header, kind: u8, function: u8, target: u8, second: u8) -> bool
    ensures { result ≡ plain_test h kind function target second }
{
    match kind {
        COPY => function == 0 && second == 0,
        APPLY => takes_two(h, function) || second == 0,
        EQUAL | UNEQUAL => function == 0 && target == 0,
        _ => false,
    }
}

// The well-formed letter with these five bytes, if there is one.
#[tactic(auto, unfolding(crate::specs::Writing::plain_letter))]
fn letter_of(h: Header, fields: &[u8; UNPACKED_BYTES]) -> Option<Letter>
    ensures { letter_answer result ≡ unpack_letter h fields.now }
{
    let [kind, function, target, first, second] = *fields;
    if !unused_are_zero(h, kind, function, target, second) {
        return None;
    }
    let letter = letter_by(h, kind, function, target, first, second);
    if letter_fits(h, letter) {
        Some(letter)
    } else {
        None
    }
}

// Counts the letters, or refuses the first that is not well formed.
fn check_letters(h: Header, fields: &[u8]) -> Result<u64, Refused>
    ensures { on_answer (as_answer result) (λ n. value (h, n)) refusal ≡ counted (letters_from (unpack_letter h) h 1 (unpacked_parts fields.now)) }
{
    let (letters, rest) = fields.as_chunks::<UNPACKED_BYTES>();
    for (i, letter) in letters.iter().enumerate() {
        if letter_of(h, letter).is_none() {
            return Err(Reason::LetterMalformed.at(i as u64 + 1));
        }
    }
    let n = letters.len() as u64;
    if !rest.is_empty() {
        return Err(Reason::LetterMalformed.at(n + 1));
    }
    Ok(n)
}

// The word of the letter with these five bytes.
#[tactic(auto, unfolding(crate::specs::Putting::word_in))]
fn word_of(h: Header, fields: &[u8; UNPACKED_BYTES]) -> Option<u16>
    ensures { letter_word_answer result ≡ word_in first_edition h fields.now }
{
    encode_letter(h, letter_of(h, fields)?)
}

// Writes the letters behind the header, two bytes each.
fn put_letters(h: Header, fields: &[u8], out: &mut [u8])
    requires { first_edition.bytes * parts_of_letters fields.now + first_edition.bytes ≤ length out.old }
    ensures { out.new ≡ put_words (word_in first_edition h) out.old first_edition.bytes (unpacked_parts fields.now) }
{
    let (letters, _) = fields.as_chunks::<UNPACKED_BYTES>();
    for (i, letter) in letters.iter().enumerate() {
        let Some(word) = word_of(h, letter) else {
            return;
        };
        put_word(out, UNIT_BYTES * i + UNIT_BYTES, word);
    }
}

// Writes the header's word and then the letters.
fn put_trace(h: Header, first: u16, fields: &[u8], out: &mut [u8])
    requires { first_edition.bytes * parts_of_letters fields.now + first_edition.bytes ≤ length out.old }
    ensures { out.new ≡ put_words (word_in first_edition h) (put_word out.old 0 first) first_edition.bytes
        (unpacked_parts fields.now) }
{
    put_word(out, 0, first);
    put_letters(h, fields, out);
}

/// Writes the trace of a header and unpacked letters. All is checked before the first byte is written.
pub fn write_trace(h: Header, fields: &[u8], out: &mut [u8]) -> Result<usize, Refused>
    ensures { WroteTrace first_edition (unpacking first_edition h fields.now) out.old out.new (as_answer result) }
{
    let Some(first) = encode_header(h) else {
        return Err(Reason::HeaderMalformed.at(0));
    };
    let n = check_letters(h, fields)?;
    let size = UNIT_BYTES * (n as usize) + UNIT_BYTES;
    if out.len() < size {
        return Err(Reason::OutputTooSmall.at(0));
    }
    put_trace(h, first, fields, out);
    Ok(size)
}
