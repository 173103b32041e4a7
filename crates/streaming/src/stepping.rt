// The step of the monitor: one letter a call.
ghost use Rattle.std.specs.Prelude.{◌≡◌};
ghost use Rattle.window.specs.Perform.{WithinPacking};
ghost use Rattle.streaming.specs.Monitor.{moved_of, after};
ghost use Rattle.streaming.specs.Meanings.{Advances};

use super::Monitor;
use letters::Letter;
use letters::reasons::Reason;
use letters::words::decode_letter;

impl Monitor {
    // Judges a letter, and then performs it if it is coherent. An incoherent letter only stops the monitor.
    fn move_on(&mut self, letter: Letter)
        requires { WithinPacking letter }
        ensures { self.new ≡ moved_of self.old letter }
    {
        if self.running {
            if self.window.judge(letter) {
                self.window.perform(letter);
            } else {
                self.running = false;
            }
        }
    }

    /// Takes the word of a letter, or refuses it by 4 and changes nothing. A stopped monitor refuses like any other and does no more.
    pub fn step(&mut self, word: u16) -> Result<(), Reason>
        ensures { Advances self.old word (after result self.new) }
    {
        let Some(letter) = decode_letter(self.header, word) else {
            return Err(Reason::LetterMalformed);
        };
        self.move_on(letter);
        Ok(())
    }
}
