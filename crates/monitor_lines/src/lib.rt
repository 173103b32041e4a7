// The lines that the monitor program prints for what the run over a trace answers: `refused N at P`; or `coherent` or `incoherent K`, and
// then `feasible` or `infeasible K`.
#![tactic(auto)]

ghost use Rattle.std.specs.Prelude.{◌≡◌, ◌++◌, length};
ghost use Rattle.text.specs.Appending.{Appended, PlaceInRange};
ghost use Rattle.streaming.specs.Run.{run_answer};
ghost use Rattle.monitor_lines.specs.Prints.{most_monitor_line_bytes, PrintsMonitorLines};
ghost use Rattle.monitor_lines.specs.Prints.{letter_text, coherence_line, feasibility_line};

use streaming::RunAnswer;
use text::{FIELDS, Writer};

/// No lines are longer.
pub const MOST_BYTES: usize = 64;

/// Room for the lines of any answer.
/// It stands for its clause, which says that the room is that of the longest lines as they are defined.
pub fn line_space() -> [u8; MOST_BYTES]
    ensures { most_monitor_line_bytes ≡ length result }
{
    [0; MOST_BYTES]
}

// Appends one template for no letter, which is 0, and another with the number of a letter.
fn put_letter(writer: &mut Writer, none: &[u8], some: &[u8], letter: u64)
    requires { PlaceInRange writer.old.at (letter_text none.now some.now letter) }
    ensures same_buffer { writer.new.out.ghost_name ≡ writer.old.out.ghost_name }
    ensures appended { Appended writer.old.out.now writer.old.at (letter_text none.now some.now letter) writer.new.out.now writer.new.at }
{
    if letter == 0 {
        writer.put_line(none, [0; FIELDS]);
    } else {
        writer.put_line(some, [letter, 0, 0, 0]);
    }
}

// Writes the lines of a trace that is judged.
fn write_judged(incoherent: u64, infeasible: u64, out: &mut [u8]) -> usize
    ensures { Appended out.old 0 (coherence_line incoherent ++ feasibility_line infeasible) out.new result }
{
    let mut writer = Writer::new(out);
    put_letter(&mut writer, b"coherent\n", b"incoherent 4\n", incoherent);
    put_letter(&mut writer, b"feasible\n", b"infeasible 4\n", infeasible);
    writer.at
}

/// Writes the lines of an answer into the front of a lent buffer, as far as that goes, and gives the number of their bytes, which is at
/// most `MOST_BYTES`.
pub fn write_lines(verdict: RunAnswer, out: &mut [u8]) -> usize
    ensures { PrintsMonitorLines (run_answer verdict) out.old result out.new }
{
    match verdict {
        RunAnswer::Judged(incoherent, infeasible) => write_judged(incoherent, infeasible, out),
        RunAnswer::Refused(number, place) => report::write_refused(number, place, out),
    }
}
