// Traces for Rust and C: written from unpacked letters, and read into them.
ghost use Rattle.std.specs.Prelude.{◌≡◌};
ghost use Rattle.letters.specs.Reasons.{as_answer};
ghost use Rattle.exports.specs.TraceCalls.{written_numbers, read_numbers, WritesWith, ReadsTrace};

use super::store;
use letters::Header;
use letters::reasons::Refused;

// How many numbers a call answers.
const WRITTEN_NUMBERS: usize = 3;

const READ_NUMBERS: usize = 6;

// `layout_numbers` says why the two stay.
// The numbers of what writing a trace gives.
#[tactic(auto, unfolding(crate::specs::TraceCalls::written_numbers))]
fn written_numbers(written: Result<usize, Refused>) -> [u64; WRITTEN_NUMBERS]
    ensures { result ≡ written_numbers (as_answer written) }
{
    match written {
        Ok(n) => [0, 0, n as u64],
        Err(refused) => [u64::from(u8::from(refused.reason)), refused.place, 0],
    }
}

// The parameters are those of the C interface.
/// Writes the packed trace of a header and unpacked letters, five bytes each: the refusal and its place, 0 for none; the bytes of the trace, which
/// stands at the front of the output.
#[unsafe(no_mangle)]
pub extern "C" fn fadzgime_write(
    registers: u8,
    functions: u8,
    binary: u8,
    fields: &[u8],
    out: &mut [u8],
    answer: &mut [u64],
)
    ensures { WritesWith registers functions binary fields.now out.old answer.old
        out.new answer.new }
{
    if answer.len() < WRITTEN_NUMBERS {
        return;
    }
    let header = Header {
        registers,
        functions,
        binary,
    };
    let written = traces::writer::write_trace(header, fields, out);
    let numbers = written_numbers(written);
    store(&numbers, answer);
}

// The numbers of what reading a trace gives.
#[tactic(auto, unfolding(crate::specs::TraceCalls::read_numbers))]
fn read_numbers(read: Result<(Header, u64), Refused>) -> [u64; READ_NUMBERS]
    ensures { result ≡ read_numbers (as_answer read) }
{
    match read {
        Ok((h, n)) => [
            0,
            0,
            h.registers as u64,
            h.functions as u64,
            h.binary as u64,
            n,
        ],
        Err(refused) => [
            u64::from(u8::from(refused.reason)),
            refused.place,
            0,
            0,
            0,
            0,
        ],
    }
}

/// Reads a packed trace of any length into its unpacked letters, five bytes each: the refusal and its place, 0 for none; the header's registers,
/// functions and mask of two-argument functions; the letters, which stand at the front of the output.
#[unsafe(no_mangle)]
pub extern "C" fn fadzgime_read_trace(trace: &[u8], out: &mut [u8], answer: &mut [u64])
    ensures { ReadsTrace trace.now out.old answer.old out.new answer.new }
{
    if answer.len() < READ_NUMBERS {
        return;
    }
    let read = traces::unpacker::unpack_trace(trace, out);
    let numbers = read_numbers(read);
    store(&numbers, answer);
}
