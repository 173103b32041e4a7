// The letters of many bytes, taken on a window whose classes lie in slots.
ghost use Rattle.std.specs.Prelude.{◌≡◌};
ghost use Rattle.window.specs.Layout.{registers, functions};
ghost use Rattle.window.specs.Perform.{WithinPacking};
ghost use Rattle.window.specs.declared.Window.{Window};
ghost use Rattle.slots.specs.Represents.{RepresentsWindow};
ghost use Rattle.streaming.specs.declared.RunAnswer.TheVariants.{Judged};
ghost use Rattle.streaming.specs.Run.{run_of};
ghost use Rattle.streaming.specs.SlotRun.{slots_performed};
ghost use Rattle.streaming.specs.Stream.{taken_all};

use super::numbering::{first, next_number};
use super::{Monitor, Run, RunAnswer};
use letters::limits::UNIT_BYTES;
use letters::refusal_numbers::LETTER_MALFORMED;
use letters::words::{decode_letter, word};
use letters::{Header, Letter};
use slots::SlotWindow;
use window::Window;

// A run from its parts.
fn run_of(header: Header, window: Window, running: bool, letters: u64, verdict: RunAnswer) -> Run
    ensures { result ≡ run_of header window running letters verdict }
{
    Run {
        monitor: Monitor {
            header,
            window,
            running,
        },
        letters,
        verdict,
    }
}

// Performs a letter only if it is fine.
fn perform_if(slots: &mut SlotWindow, fine: bool, letter: Letter)
    requires { WithinPacking letter }
    ensures { slots.new ≡ slots_performed slots.old fine letter }
{
    if fine {
        slots.perform(letter);
    }
}

// The letters of these bytes, from a run with a window that these slots stand for. The parts of the run are parameters of their own: a struct of
// them, a run without its window, would be read nowhere else.
fn take_from(
    header: Header,
    mut slots: SlotWindow,
    mut fine: bool,
    mut count: u64,
    mut one: u64,
    mut two: u64,
    bytes: &[u8],
) -> Run
    ensures { (window : Window) → RepresentsWindow registers functions header.registers slots window
        → result ≡ taken_all (run_of header window fine count (Judged one two)) bytes.now }
{
    let (words, _) = bytes.as_chunks::<UNIT_BYTES>();
    for &[high, low] in words {
        let number = next_number(count);
        let Some(letter) = decode_letter(header, word(high, low)) else {
            return run_of(
                header,
                slots.window(),
                fine,
                count,
                RunAnswer::Refused(LETTER_MALFORMED, number),
            );
        };
        fine = fine & slots.judge(letter);
        perform_if(&mut slots, fine, letter);
        count = number;
        one = first(one, !fine, number);
        two = first(two, slots.infeasible(), number);
    }
    run_of(
        header,
        slots.window(),
        fine,
        count,
        RunAnswer::Judged(one, two),
    )
}

impl Run {
    /// Takes the letters whose words these bytes are; a last byte without its other half is left alone.
    /// A window that the slots made of it do not stand for is taken on its tables.
    pub fn take_on_slots(&mut self, bytes: &[u8])
        ensures { self.new ≡ taken_all self.old bytes.now }
    {
        let RunAnswer::Judged(one, two) = self.verdict else {
            return;
        };
        let Monitor {
            header,
            window,
            running,
        } = self.monitor;
        let slots = SlotWindow::of_window(&window);
        if slots.represents(&window, usize::from(header.registers)) {
            *self = take_from(header, slots, running, self.letters, one, two, bytes);
        } else {
            self.take_each(bytes);
        }
    }
}
