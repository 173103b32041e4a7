// The run over a trace's words: it numbers the letters, and names the first incoherent and the first infeasible one.
ghost use Rattle.std.specs.Prelude.{◌≡◌, length};
ghost use Rattle.streaming.specs.Run.{next_number, first_of};
ghost use Rattle.streaming.specs.Stream.{taken_all};
ghost use Rattle.streaming.specs.Meanings.{RunBegins, RunTakes};

use super::{Monitor, Run, RunAnswer};
use letters::limits::UNIT_BYTES;
use letters::words::word;

/// The number of the letter after n letters. The last number of 64 bits stands for all that are greater.
#[tactic(auto, unfolding(crate::specs::Run::next_number, crate::specs::Run::last))]
pub fn next_number(n: u64) -> u64
    ensures { result ≡ next_number n }
{
    n.saturating_add(1)
}

/// The first letter at which something is so: the one named before, or else this one if it is so now.
#[tactic(auto, unfolding(crate::specs::Run::first_of))]
pub fn first(named: u64, now: bool, number: u64) -> u64
    ensures { result ≡ first_of named now number }
{
    if named != 0 {
        named
    } else if now {
        number
    } else {
        0
    }
}

impl Run {
    /// The run over a trace with this header word, before its first letter. A header that is not well formed is refused by 3.
    pub fn begin(word: u16) -> Run
        ensures { RunBegins word result }
    {
        match Monitor::start(word) {
            Ok(monitor) => Run {
                monitor,
                letters: 0,
                verdict: RunAnswer::Judged(0, 0),
            },
            Err(reason) => Run {
                monitor: Monitor::idle(),
                letters: 0,
                verdict: RunAnswer::Refused(u8::from(reason), 0),
            },
        }
    }

    /// Takes the word of the next letter. A letter that is not well formed ends the run with 4 and its number.
    pub fn take(&mut self, word: u16)
        ensures { RunTakes self.old word self.new }
    {
        let RunAnswer::Judged(incoherent, infeasible) = self.verdict else {
            return;
        };
        let number = next_number(self.letters);
        if let Err(reason) = self.monitor.step(word) {
            self.verdict = RunAnswer::Refused(u8::from(reason), number);
            return;
        }
        self.letters = number;
        let one = first(incoherent, !self.monitor.running, number);
        let two = first(infeasible, self.monitor.window.infeasible, number);
        self.verdict = RunAnswer::Judged(one, two);
    }

    /// Takes the letters whose words these bytes are, one after the other; a last byte without its other half is left alone.
    pub fn take_each(&mut self, bytes: &[u8])
        ensures { self.new ≡ taken_all self.old bytes.now }
    {
        let (words, _) = bytes.as_chunks::<UNIT_BYTES>();
        for &[high, low] in words {
            self.take(word(high, low));
        }
    }
}
