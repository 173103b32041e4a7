// The run over a trace's bytes, all at once or one by one. Questions 1 and 2 are about the whole length, so they are answered at the end.
ghost use Rattle.std.specs.Prelude.{◌≡◌, true, [], ◌∷◌, ◌<◌, length};
ghost use Rattle.streaming.specs.Demand2.{Demand2};
ghost use Rattle.streaming.specs.Run.{run_answer};
ghost use Rattle.streaming.specs.Stream.{taken_all, at_letter, pushed_all, judged_bytes};
ghost use Rattle.streaming.specs.Meanings.{StreamStarts, StreamPushes, StreamFinishes};

use super::{Monitor, Phase, Run, RunAnswer, Stream};
use letters::limits::UNIT_BYTES;
use letters::refusal_numbers::{TRACE_ODD_LENGTH, TRACE_TOO_SHORT};
use letters::words::word;

// From so many bytes on it pays to put the classes into slots and back, which takes as long as some hundred letters.
const SLOTS_FROM: usize = 1024;

impl Run {
    // Takes the letters whose words these bytes are; a last byte without its other half is left alone.
    fn take_all(&mut self, bytes: &[u8])
        ensures { self.new ≡ taken_all self.old bytes.now }
    {
        if bytes.len() < SLOTS_FROM {
            self.take_each(bytes);
        } else {
            self.take_on_slots(bytes);
        }
    }
}

impl Phase {
    // Whether the next byte begins a letter.
    fn at_letter(self) -> bool
        ensures { result ≡ at_letter self }
    {
        matches!(self, Phase::Even)
    }
}

impl Stream {
    /// A stream before its first byte.
    pub fn start() -> Stream
        ensures { StreamStarts result }
    {
        Stream {
            phase: Phase::Empty,
            high: 0,
            run: Run {
                monitor: Monitor::idle(),
                letters: 0,
                verdict: RunAnswer::Judged(0, 0),
            },
        }
    }

    /// Takes the next byte.
    pub fn push(&mut self, byte: u8)
        ensures { StreamPushes self.old (byte ∷ []) self.new }
    {
        match self.phase {
            Phase::Empty => {
                self.phase = Phase::One;
                self.high = byte;
            }
            Phase::One => {
                self.run = Run::begin(word(self.high, byte));
                self.phase = Phase::Even;
                self.high = 0;
            }
            Phase::Even => {
                self.phase = Phase::Odd;
                self.high = byte;
            }
            Phase::Odd => {
                self.run.take(word(self.high, byte));
                self.phase = Phase::Even;
                self.high = 0;
            }
        }
    }

    /// The answer for the bytes that have come, as the bytes of a whole trace.
    pub fn finish(&self) -> RunAnswer
        ensures { StreamFinishes self.now result }
    {
        match self.phase {
            Phase::Empty | Phase::One => RunAnswer::Refused(TRACE_TOO_SHORT, 0),
            Phase::Even => self.run.verdict,
            Phase::Odd => RunAnswer::Refused(TRACE_ODD_LENGTH, 0),
        }
    }

    // Takes these bytes, one at least, the first of which begins a letter.
    fn push_letters(&mut self, bytes: &[u8])
        requires { (at_letter self.old.phase ≡ true) × (0 < length bytes.now) }
        ensures { self.new ≡ pushed_all self.old bytes.now }
    {
        self.run.take_all(bytes);
        self.high = 0;
        if bytes.len() % UNIT_BYTES == 1 {
            self.push(bytes[bytes.len() - 1]);
        }
    }

    /// Takes the next bytes, one after the other.
    pub fn push_all(&mut self, bytes: &[u8])
        ensures { StreamPushes self.old bytes.now self.new }
    {
        for (i, &byte) in bytes.iter().enumerate() {
            if self.phase.at_letter() {
                self.push_letters(&bytes[i..]);
                return;
            }
            self.push(byte);
        }
    }
}

/// Judges the bytes of a trace: demand 2.
pub fn judge_trace(bytes: &[u8]) -> RunAnswer
    ensures { (result ≡ judged_bytes bytes.now) × Demand2 bytes.now (run_answer result) }
{
    let mut stream = Stream::start();
    stream.push_all(bytes);
    stream.finish()
}
