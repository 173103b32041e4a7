// The house layout for Rust and C.
ghost use Rattle.std.specs.Prelude.{◌≡◌};
ghost use Rattle.layout_writer.specs.Answer.{layout_answer};
ghost use Rattle.exports.specs.LayoutCalls.{layout_numbers, LaysOutMacro};

use super::store;
use letters::reasons::Refused;

// How many numbers the call answers.
const LAYOUT_NUMBERS: usize = 3;

// `written_numbers` has this body too: the contracts of the calls that C has cite a definition each (`layout_numbers`, `written_numbers`).
// The numbers of what printing a macro gives.
#[tactic(auto, unfolding(crate::specs::LayoutCalls::layout_numbers))]
fn layout_numbers(written: Result<usize, Refused>) -> [u64; LAYOUT_NUMBERS]
    ensures { result ≡ layout_numbers (layout_answer written) }
{
    match written {
        Ok(bytes) => [0, 0, bytes as u64],
        Err(refused) => [u64::from(u8::from(refused.reason)), refused.place, 0],
    }
}

// The body is that of the other calls: what C calls is a function with a name of its own.
/// Prints a macro in the house layout: the refusal and its place, 0 for none; the bytes of the print, which stands at the front of the output,
/// 0 on a refusal, which leaves the output as lent.
#[unsafe(no_mangle)]
pub extern "C" fn fadzgime_layout(text: &[u8], out: &mut [u8], answer: &mut [u64])
    ensures { LaysOutMacro text.now out.old answer.old out.new answer.new }
{
    if answer.len() < LAYOUT_NUMBERS {
        return;
    }
    let written = layout_writer::write_layout(text, out);
    let numbers = layout_numbers(written);
    store(&numbers, answer);
}
