// Words: headers and letters packed in 16 bits each, most significant bit first.
ghost use Rattle.std.specs.Prelude.{◌≡◌, true, ◌&&◌, [], ◌∷◌, ◌+◌, ◌*◌, ◌/◌, ◌%◌, ◌<◌, eqb, ltb, length};
ghost use Rattle.letters.specs.Putting.{put_word};
ghost use Rattle.base.specs.Choice.{pick};
ghost use Rattle.base.specs.Masks.{has};
ghost use Rattle.letters.specs.declared.Letter.TheVariants.{Copy, Apply, Equal, Unequal};
ghost use Rattle.letters.specs.Packing.{Sized, join, split};
ghost use Rattle.letters.specs.Editions.{first_edition};
ghost use Rattle.letters.specs.Answers.{value};
ghost use Rattle.letters.specs.CodeAnswers.{header_answer, letter_answer, header_word_answer, letter_word_answer};
ghost use Rattle.letters.specs.Words.{bits_from, header_fields, header_word, letter_fields, letter_word};
ghost use Rattle.letters.specs.Coding.{header_test, fits_test, apply_test};
ghost use Rattle.letters.specs.Coding.{named_header, letter_by, decode_header, decode_letter};
ghost use Rattle.letters.specs.Encoding.{encode_header, encode_letter};

use super::limits::{MOST_FUNCTIONS, MOST_REGISTERS};
use super::{Header, Letter};

// The limits as a header holds its counts.
const REGISTER_LIMIT: u8 = MOST_REGISTERS as u8;

const FUNCTION_LIMIT: u8 = MOST_FUNCTIONS as u8;

// How many functions the mask of a header has bits for.
const MASK_BITS: u8 = 8;

// What a header's fields count in its word: registers 4 bits, functions 3, arity 4, spare 5.
const HEADER_REGISTERS: u16 = 4096;

const HEADER_FUNCTIONS: u16 = 512;

const HEADER_ARITY: u16 = 32;

// What a letter's fields count in its word: kind 2 bits, function 2, target 3, first 3, second 3, spare 3.
const LETTER_KIND: u16 = 16384;

const LETTER_FUNCTION: u16 = 4096;

const LETTER_TARGET: u16 = 512;

const LETTER_FIRST: u16 = 64;

const LETTER_SECOND: u16 = 8;

// The kinds of a letter, by the number in its word. They stay numbers beside `Letter`: C hands them over in unpacked letters (`fadzgime_write`).
/// The kind of a copy.
pub const COPY: u8 = 0;

/// The kind of an application.
pub const APPLY: u8 = 1;

/// The kind of a test of equality.
pub const EQUAL: u8 = 2;

/// The kind of a test of inequality.
pub const UNEQUAL: u8 = 3;

// Stays beside the library's method: its clause, `high * 256 + low`, is what the laws of packing cite.
/// Two bytes as a word, the first the more significant.
pub fn word(high: u8, low: u8) -> u16
    ensures { result ≡ high * 256 + low }
{
    u16::from_be_bytes([high, low])
}

// The buffer and the place stay two parameters: the buffer is lent (C interface), and each caller stores at places of its own.
/// Stores a word at `at`, two bytes, and changes no other byte. For writers that have checked their room.
pub fn put_word(out: &mut [u8], at: usize, word: u16)
    requires { at + 1 < length out.old }
    ensures { out.new ≡ put_word out.old at word }
{
    let [high, low] = word.to_be_bytes();
    out[at] = high;
    out[at + 1] = low;
}

/// Whether function f takes two arguments.
#[tactic(auto, using(crate::proofs::Laws::no_bit))]
pub fn takes_two(h: Header, f: u8) -> bool
    ensures { result ≡ has h.binary f }
{
    f < MASK_BITS && (h.binary >> f) % 2 == 1
}

/// Whether a header is well formed.
#[tactic(auto, using(base::proofs::Theory::MaskLaws::shl_one), unfolding(crate::specs::Coding::header_test))]
pub fn header_fits(h: Header) -> bool
    ensures { result ≡ header_test first_edition h }
{
    (1..=REGISTER_LIMIT).contains(&h.registers)
        && h.functions <= FUNCTION_LIMIT
        && h.binary < (1u8 << h.functions)
}

// Whether two registers lie below the header's count.
fn registers_fit(h: Header, a: u8, b: u8) -> bool
    ensures { result ≡ ltb a h.registers && ltb b h.registers }
{
    a < h.registers && b < h.registers
}

#[tactic(auto, unfolding(crate::specs::Coding::apply_test))]
fn application_fits(h: Header, target: u8, function: u8, first: u8, second: u8) -> bool
    ensures { result ≡ apply_test h target function first second }
{
    target < h.registers
        && function < h.functions
        && first < h.registers
        && second < h.registers
        && (takes_two(h, function) || first == second)
}

/// Whether a letter fits a header.
#[tactic(auto, unfolding(crate::specs::Coding::fits_test))]
pub fn letter_fits(h: Header, l: Letter) -> bool
    ensures { result ≡ fits_test h l }
{
    match l {
        Letter::Copy { target, source } => registers_fit(h, target, source),
        Letter::Apply {
            target,
            function,
            first,
            second,
        } => application_fits(h, target, function, first, second),
        Letter::Equal { first, second } | Letter::Unequal { first, second } => {
            registers_fit(h, first, second)
        }
    }
}

// Four bits in the other order: from a mask of functions to the arity field, and back.
fn mirrored(mask: u8) -> u8
    ensures { result ≡ join (1 ∷ 1 ∷ 1 ∷ 1 ∷ []) (bits_from 0 4 mask) }
{
    mask % 2 * 8 + mask / 2 % 2 * 4 + mask / 4 % 2 * 2 + mask / 8 % 2
}

// The word of a header whose fields fit their widths.
#[tactic(auto, unfolding(crate::specs::Words::header_word))]
fn header_word(h: Header) -> u16
    requires { Sized first_edition.header (header_fields first_edition h) }
    ensures { result ≡ header_word first_edition h }
{
    let arity = mirrored(h.binary);
    u16::from(h.registers) * HEADER_REGISTERS
        + u16::from(h.functions) * HEADER_FUNCTIONS
        + u16::from(arity) * HEADER_ARITY
}

/// The word of a header.
#[tactic(auto, using(crate::proofs::Laws::header_sized), unfolding(crate::specs::Encoding::encode_header))]
pub fn encode_header(h: Header) -> Option<u16>
    ensures { header_word_answer result ≡ encode_header first_edition h }
{
    if header_fits(h) {
        Some(header_word(h))
    } else {
        None
    }
}

// The header that a word's fields name, well formed or not.
#[tactic(auto, using(crate::proofs::Laws::mirror), unfolding(crate::specs::Coding::named_header))]
fn named_header(word: u16) -> Header
    ensures { result ≡ named_header first_edition (split first_edition.header word) }
{
    let registers = (word / HEADER_REGISTERS % 16) as u8;
    let functions = (word / HEADER_FUNCTIONS % 8) as u8;
    let arity = (word / HEADER_ARITY % 16) as u8;
    let binary = mirrored(arity);
    Header {
        registers,
        functions,
        binary,
    }
}

/// The well-formed header that packs to this word, if there is one.
pub fn decode_header(word: u16) -> Option<Header>
    ensures { header_answer result ≡ decode_header first_edition word }
{
    let header = named_header(word);
    if encode_header(header)? == word {
        Some(header)
    } else {
        None
    }
}

// The fields stay six parameters: a struct of them would be `Letter` once more.
// The word of a letter's fields, the spare field 0.
fn packed_fields(kind: u8, function: u8, target: u8, first: u8, second: u8) -> u16
    requires { Sized first_edition.letter (kind ∷ function ∷ target ∷ first ∷ second ∷ 0 ∷ []) }
    ensures { result ≡ join first_edition.letter (kind ∷ function ∷ target ∷ first ∷ second ∷ 0 ∷ []) }
{
    u16::from(kind) * LETTER_KIND
        + u16::from(function) * LETTER_FUNCTION
        + u16::from(target) * LETTER_TARGET
        + u16::from(first) * LETTER_FIRST
        + u16::from(second) * LETTER_SECOND
}

/// Of two numbers, the one for a function of two arguments or the one for a function of one.
pub fn by_arity(h: Header, function: u8, two: u8, one: u8) -> u8
    ensures { result ≡ pick (has h.binary function) (λ _. two) (λ _. one) }
{
    if takes_two(h, function) { two } else { one }
}

// The word of a letter whose fields fit their widths.
#[tactic(auto, unfolding(crate::specs::Words::letter_word))]
fn letter_word(h: Header, l: Letter) -> u16
    requires { Sized first_edition.letter (letter_fields h l) }
    ensures { result ≡ letter_word first_edition h l }
{
    match l {
        Letter::Copy { target, source } => packed_fields(COPY, 0, target, source, 0),
        Letter::Apply {
            target,
            function,
            first,
            second,
        } => {
            let field = by_arity(h, function, second, 0);
            packed_fields(APPLY, function, target, first, field)
        }
        Letter::Equal { first, second } => packed_fields(EQUAL, 0, 0, first, second),
        Letter::Unequal { first, second } => packed_fields(UNEQUAL, 0, 0, first, second),
    }
}

/// The word of a letter under a header. Under a header that is not well formed no letter is.
#[tactic(auto, using(crate::proofs::Laws::letter_sized), unfolding(crate::specs::Encoding::encode_letter))]
pub fn encode_letter(h: Header, l: Letter) -> Option<u16>
    ensures { letter_word_answer result ≡ encode_letter first_edition h l }
{
    if header_fits(h) && letter_fits(h, l) {
        Some(letter_word(h, l))
    } else {
        None
    }
}

// The fields stay parameters: any numbers are taken, and a struct of them would be `Letter` once more.
/// The letter of this kind, well formed or not. The application of a one-argument function has its argument twice.
#[tactic(auto, unfolding(crate::specs::Coding::letter_by))]
pub fn letter_by(h: Header, kind: u8, function: u8, target: u8, first: u8, second: u8) -> Letter
    ensures { result ≡ letter_by h kind function target first second }
{
    match kind {
        COPY => Letter::Copy {
            target,
            source: first,
        },
        APPLY => {
            let last = by_arity(h, function, second, first);
            Letter::Apply {
                target,
                function,
                first,
                second: last,
            }
        }
        EQUAL => Letter::Equal { first, second },
        _ => Letter::Unequal { first, second },
    }
}

/// The well-formed letter that packs to this word under a header, if there is one. A field that a letter does not use is 0, which is a
/// register of every header, so all three are held against the count before the kind is looked at.
pub fn decode_letter(h: Header, word: u16) -> Option<Letter>
    ensures { letter_answer result ≡ decode_letter first_edition h word }
{
    let kind = (word / LETTER_KIND % 4) as u8;
    let function = (word / LETTER_FUNCTION % 4) as u8;
    let target = (word / LETTER_TARGET % 8) as u8;
    let first = (word / LETTER_FIRST % 8) as u8;
    let second = (word / LETTER_SECOND % 8) as u8;
    if !header_fits(h) || word % 8 != 0 {
        return None;
    }
    if h.registers <= target || h.registers <= first || h.registers <= second {
        return None;
    }
    match kind {
        COPY => {
            if function != 0 || second != 0 {
                return None;
            }
            Some(Letter::Copy {
                target,
                source: first,
            })
        }
        APPLY => {
            if h.functions <= function {
                return None;
            }
            if second != 0 && !takes_two(h, function) {
                return None;
            }
            let second = by_arity(h, function, second, first);
            Some(Letter::Apply {
                target,
                function,
                first,
                second,
            })
        }
        _ => {
            if function != 0 || target != 0 {
                return None;
            }
            if kind == EQUAL {
                Some(Letter::Equal { first, second })
            } else {
                Some(Letter::Unequal { first, second })
            }
        }
    }
}
