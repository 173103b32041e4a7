// Traces: the reader that gives the letters too, unpacked as the writer takes them, five bytes each.
ghost use Rattle.std.specs.Prelude.{◌≡◌, ◌+◌, ◌-◌, ◌*◌, ◌/◌, ◌≤◌, length};
ghost use Rattle.letters.specs.Editions.{first_edition};
ghost use Rattle.letters.specs.Reasons.{as_answer};
ghost use Rattle.traces.specs.Reading.{reading};
ghost use Rattle.traces.specs.Writing.{unpacked_letter_bytes, plain_fields};
ghost use Rattle.traces.specs.Unpacking.{put_plain, put_unpacked, Unpacked};

use super::{UNPACKED_BYTES, read_trace};
use letters::limits::UNIT_BYTES;
use letters::reasons::{Reason, Refused};
use letters::words::{APPLY, COPY, EQUAL, UNEQUAL, by_arity, decode_letter, word};
use letters::{Header, Letter};

/// The kind, function, target, first and second of a letter, unused ones 0.
pub fn fields_of(h: Header, l: Letter) -> [u8; UNPACKED_BYTES]
    ensures { result ≡ plain_fields h l }
{
    match l {
        Letter::Copy { target, source } => [COPY, 0, target, source, 0],
        Letter::Apply {
            target,
            function,
            first,
            second,
        } => {
            let field = by_arity(h, function, second, 0);
            [APPLY, function, target, first, field]
        }
        Letter::Equal { first, second } => [EQUAL, 0, 0, first, second],
        Letter::Unequal { first, second } => [UNEQUAL, 0, 0, first, second],
    }
}

// The buffer and the place stay two parameters: the buffer is lent (C interface).
// Stores the five bytes of a letter from `to` on.
fn put_fields(h: Header, l: Letter, out: &mut [u8], to: usize)
    requires { to + unpacked_letter_bytes ≤ length out.old }
    ensures { out.new ≡ put_plain h out.old to l }
{
    out[to..to + UNPACKED_BYTES].copy_from_slice(&fields_of(h, l));
}

// Unpacks the letters behind the header, up to the first that is not well formed.
fn put_unpacked(h: Header, bytes: &[u8], out: &mut [u8])
    requires { (first_edition.bytes ≤ length bytes.now) × (unpacked_letter_bytes * (length bytes.now / first_edition.bytes - 1) ≤ length out.old) }
    ensures { out.new ≡ put_unpacked h out.old bytes.now }
{
    let (letters, _) = bytes[UNIT_BYTES..].as_chunks::<UNIT_BYTES>();
    for (i, &[high, low]) in letters.iter().enumerate() {
        let Some(letter) = decode_letter(h, word(high, low)) else {
            return;
        };
        put_fields(h, letter, out, UNPACKED_BYTES * i);
    }
}

/// Reads a trace of any length into its unpacked letters. All is checked before the first byte is written.
pub fn unpack_trace(bytes: &[u8], out: &mut [u8]) -> Result<(Header, u64), Refused>
    ensures { Unpacked (reading first_edition bytes.now) out.old out.new (as_answer result) }
{
    let (h, n) = read_trace(bytes)?;
    if ((out.len() / UNPACKED_BYTES) as u64) < n {
        return Err(Reason::OutputTooSmall.at(0));
    }
    put_unpacked(h, bytes, out);
    Ok((h, n))
}
