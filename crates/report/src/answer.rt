// What an answer's bytes hold: letters, words and rows. Bytes that are not there count as 0.
ghost use Rattle.std.specs.Prelude.{◌≡◌, ◌+◌, ◌^◌, ◌<◌, get_or};
ghost use Rattle.report.specs.Shown.{letter_or_copy};
ghost use Rattle.report.specs.Shown.{word_at, row_in, word_values};

use letters::{Header, Letter};
use traces::letter_at;

/// The bytes of a word.
pub const WORD_BYTES: usize = 2;

/// The bytes of a row.
pub const ROW_BYTES: usize = 5;

// The byte at `at`.
fn byte_at(bytes: &[u8], at: usize) -> u8
    ensures { result ≡ get_or bytes.now at 0 }
{
    bytes.get(at).copied().unwrap_or(0)
}

/// The two bytes at `at` as a number.
pub fn word_at(bytes: &[u8], at: usize) -> u64
    requires { at + 1 < 2 ^ 64 }
    ensures { (result ≡ word_at bytes.now at) × (result < word_values) }
{
    u64::from(u16::from_be_bytes([byte_at(bytes, at), byte_at(bytes, at + 1)]))
}

/// The five bytes at `at` as a number.
pub fn row_at(bytes: &[u8], at: usize) -> u64
    requires { at + 4 < 2 ^ 64 }
    ensures { result ≡ row_in bytes.now at }
{
    u64::from_be_bytes([
        0,
        0,
        0,
        byte_at(bytes, at),
        byte_at(bytes, at + 1),
        byte_at(bytes, at + 2),
        byte_at(bytes, at + 3),
        byte_at(bytes, at + 4),
    ])
}

/// Letter k.
pub fn letter_of(h: Header, bytes: &[u8], k: usize) -> Letter
    ensures { result ≡ letter_or_copy h bytes.now k }
{
    letter_at(h, bytes, k).unwrap_or(Letter::Copy {
        target: 0,
        source: 0,
    })
}
