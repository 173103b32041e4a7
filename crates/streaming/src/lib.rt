// The monitor of a trace: one letter a call, a whole trace, and a trace byte by byte (SPEC 6).
#![tactic(auto)]

use letters::Header;
use window::Window;

/// The monitor's start.
pub mod starting;
/// The monitor's step, one letter a call.
pub mod stepping;
/// The run over a trace's words, which numbers the letters.
pub mod numbering;
// The letters of many bytes, on slots.
mod by_slots;
/// The run over a trace's bytes, all at once or one by one.
pub mod byte_stream;

/// The monitor: a header, the window of the letters taken so far, and whether it still runs. An incoherent letter stops it.
#[derive(Clone, Copy)]
pub struct Monitor {
    /// What the trace's header says.
    pub header: Header,
    /// The window of the longest coherent beginning of the letters taken.
    pub window: Window,
    /// Whether all letters taken are coherent.
    pub running: bool,
}

/// What the run over a trace answers. Its refusal stays a number of 8 bits: a stored state may hold any byte there, and `fadzgime_stream_finish`
/// answers it (FinishesStream).
#[derive(Clone, Copy)]
pub enum RunAnswer {
    /// The first incoherent letter, and the first infeasible letter before it; 0 for none.
    Judged(u64, u64),
    /// A refusal, its number and its place.
    Refused(u8, u64),
}

/// The run over a trace.
#[derive(Clone, Copy)]
pub struct Run {
    /// The monitor of the letters taken.
    pub monitor: Monitor,
    /// How many letters were taken.
    pub letters: u64,
    /// The answer for them.
    pub verdict: RunAnswer,
}

/// How many bytes of a trace have come.
#[derive(Clone, Copy)]
pub enum Phase {
    /// None.
    Empty,
    /// One.
    One,
    /// An even number, from 2 on.
    Even,
    /// An odd number, from 3 on.
    Odd,
}

/// The run over a trace whose bytes come one by one.
#[derive(Clone, Copy)]
pub struct Stream {
    /// How many bytes have come.
    pub phase: Phase,
    /// The byte whose other half of a word has still to come.
    pub high: u8,
    /// The run over the words that have come.
    pub run: Run,
}
