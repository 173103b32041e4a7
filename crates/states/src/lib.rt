// Monitors and streams as bytes, so that a caller in C or Rust can keep them between calls: one byte an entry, numbers of 64 bits in eight bytes.
#![tactic(auto)]

ghost use Rattle.std.specs.Prelude.{◌≡◌, ◌+◌, ◌≤◌, ◌++◌, length, take, drop};
ghost use Rattle.letters.specs.Packing.{join, split};
ghost use Rattle.states.specs.States.{number_size, eight_octets, monitor_size, stream_size, head_of, parts_then, Sizes, monitor_window_in, monitor_in};
ghost use Rattle.states.specs.States.{KeepsMonitor};
ghost use Rattle.states.specs.States.{phase_code, phase_in, run_answer_code, refusal_number, first_number, second_number, run_answer_in};
ghost use Rattle.states.specs.States.{tail_then, stream_in, KeepsStream};

use letters::Header;
use records::{flagged, flags, lay, marks};
use streaming::{Monitor, Phase, Run, RunAnswer, Stream};
use window::{LINES, Mask, REGISTERS, RESULTS, Window};

// The bytes of a state's head, of a stream's tail, which is behind its monitor and before its numbers, and of a number.
const HEAD_SIZE: usize = 7;

const TAIL_SIZE: usize = 4;

const NUMBER_SIZE: usize = 8;

// Where the parts stand, each behind the one before it: specs/States.antt.
const CLASS: usize = HEAD_SIZE;

const UNEQUAL: usize = CLASS + REGISTERS;

const MARK: usize = UNEQUAL + REGISTERS;

const EVER: usize = MARK + REGISTERS;

const RESULT: usize = EVER + LINES;

/// How many bytes a monitor has.
pub const MONITOR_SIZE: usize = RESULT + RESULTS;

const TAIL: usize = MONITOR_SIZE;

const LETTERS: usize = TAIL + TAIL_SIZE;

const FIRST: usize = LETTERS + NUMBER_SIZE;

const SECOND: usize = FIRST + NUMBER_SIZE;

/// How many bytes a stream has.
pub const STREAM_SIZE: usize = SECOND + NUMBER_SIZE;

// ---- numbers

// A number in eight bytes, the most significant first.
fn octets(n: u64) -> [u8; NUMBER_SIZE]
    ensures value { result ≡ split eight_octets n }
    ensures back { join eight_octets result ≡ n }
{
    n.to_be_bytes()
}

// The number in eight bytes.
fn number(b: [u8; NUMBER_SIZE]) -> u64
    ensures { result ≡ join eight_octets b }
{
    u64::from_be_bytes(b)
}

// ---- parts of a state

// `records` has such three lines too: a public function for them would need a contract and an edit of its own, no plainer.
// Eight bytes from a place on: those of a number, or one for each register.
fn eight_at(state: &[u8], at: usize) -> [u8; NUMBER_SIZE]
    requires { at + number_size ≤ length state.now }
    ensures { result ≡ take number_size (drop at state.now) }
{
    let mut bytes = [0u8; NUMBER_SIZE];
    bytes.copy_from_slice(&state[at..at + NUMBER_SIZE]);
    bytes
}

fn number_at(state: &[u8], at: usize) -> u64
    requires { at + number_size ≤ length state.now }
    ensures { result ≡ join eight_octets (take number_size (drop at state.now)) }
{
    number(eight_at(state, at))
}

// ---- monitors

// The first bytes of a monitor's state.
fn head(kind: u8, m: Monitor) -> [u8; HEAD_SIZE]
    ensures { result ≡ head_of kind m }
{
    let header = m.header;
    let window = m.window;
    [
        kind,
        header.registers,
        header.functions,
        header.binary,
        flagged(m.running),
        flagged(window.infeasible),
        window.classes,
    ]
}

// The parts stay parameters: what the proof searches for them is found behind few facts only (docs/PROVING.md).
// Lays the parts of a monitor over the state.
fn put_parts(
    head: [u8; HEAD_SIZE],
    class: [Mask; REGISTERS],
    unequal: [Mask; REGISTERS],
    marks: [u8; REGISTERS],
    ever: [Mask; LINES],
    res: [Mask; RESULTS],
    state: &mut [u8],
)
    requires { monitor_size ≤ length state.old }
    ensures state_after { state.new ≡ parts_then head class unequal marks ever res (drop monitor_size state.old) }
    ensures sizes { Sizes class unequal marks ever res }
{
    lay(state, 0, &head);
    lay(state, CLASS, &class);
    lay(state, UNEQUAL, &unequal);
    lay(state, MARK, &marks);
    lay(state, EVER, &ever);
    lay(state, RESULT, &res);
}

/// Stores a monitor. For callers that have checked the room.
pub fn put_monitor(kind: u8, m: Monitor, state: &mut [u8])
    requires { monitor_size ≤ length state.old }
    ensures { KeepsMonitor kind m state.old state.new }
{
    let w = m.window;
    let class = w.class;
    let unequal = w.unequal;
    let mark = w.mark;
    let ever = w.ever;
    let result = w.result;
    let marked = flags(mark);
    put_parts(head(kind, m), class, unequal, marked, ever, result, state);
}

// The window in a state.
fn window_in(state: &[u8]) -> Window
    requires { monitor_size ≤ length state.now }
    ensures { result ≡ monitor_window_in state.now }
{
    let class = eight_at(state, CLASS);
    let unequal = eight_at(state, UNEQUAL);
    let mark = marks(eight_at(state, MARK));
    let mut ever = [0u8; LINES];
    lay(&mut ever, 0, &state[EVER..RESULT]);
    let mut result = [0u8; RESULTS];
    lay(&mut result, 0, &state[RESULT..TAIL]);
    let infeasible = state[5] == 1;
    let classes = state[6];
    Window {
        class,
        unequal,
        result,
        ever,
        mark,
        infeasible,
        classes,
    }
}

/// The monitor in a state.
#[tactic(auto, unfolding(crate::specs::States::monitor_in, records::specs::Records::is_set))]
pub fn monitor_in(state: &[u8]) -> Monitor
    requires { monitor_size ≤ length state.now }
    ensures { result ≡ monitor_in state.now }
{
    let header = Header {
        registers: state[1],
        functions: state[2],
        binary: state[3],
    };
    let window = window_in(state);
    let running = state[4] == 1;
    Monitor {
        header,
        window,
        running,
    }
}

// ---- streams

// The numbers of the phases, as a state keeps them.
const PHASE_EMPTY: u8 = 0;

const PHASE_ONE: u8 = 1;

const PHASE_EVEN: u8 = 2;

const PHASE_ODD: u8 = 3;

// No `From`: `streaming`, whose types these are, knows nothing of how a state that C keeps numbers them, and an impl here is not allowed.
fn phase_code(phase: Phase) -> u8
    ensures { result ≡ phase_code phase }
{
    match phase {
        Phase::Empty => PHASE_EMPTY,
        Phase::One => PHASE_ONE,
        Phase::Even => PHASE_EVEN,
        Phase::Odd => PHASE_ODD,
    }
}

// Any other number is read as that of an odd phase: every state's bytes are read as some stream.
#[tactic(auto, using(base::proofs::Theory::Choice::decide), unfolding(crate::specs::States::phase_in))]
fn phase_of(code: u8) -> Phase
    ensures { result ≡ phase_in code }
{
    match code {
        PHASE_EMPTY => Phase::Empty,
        PHASE_ONE => Phase::One,
        PHASE_EVEN => Phase::Even,
        _ => Phase::Odd,
    }
}

// The numbers of the two kinds of answers, as a state keeps them.
const JUDGED: u8 = 0;

const REFUSED: u8 = 1;

// Here and below an answer is taken apart number by number: each stands at a place of its own in a state that C keeps.
fn verdict_code(verdict: RunAnswer) -> u8
    ensures { result ≡ run_answer_code verdict }
{
    match verdict {
        RunAnswer::Judged(..) => JUDGED,
        RunAnswer::Refused(..) => REFUSED,
    }
}

fn refusal_number(verdict: RunAnswer) -> u8
    ensures { result ≡ refusal_number verdict }
{
    match verdict {
        RunAnswer::Judged(..) => 0,
        RunAnswer::Refused(number, ..) => number,
    }
}

fn first_number(verdict: RunAnswer) -> u64
    ensures { result ≡ first_number verdict }
{
    match verdict {
        RunAnswer::Judged(incoherent, ..) => incoherent,
        RunAnswer::Refused(..) => 0,
    }
}

fn second_number(verdict: RunAnswer) -> u64
    ensures { result ≡ second_number verdict }
{
    match verdict {
        RunAnswer::Judged(.., infeasible) => infeasible,
        RunAnswer::Refused(.., place) => place,
    }
}

// Any other number is read as that of a refusal.
#[tactic(auto, using(base::proofs::Theory::Choice::decide), unfolding(crate::specs::States::run_answer_in))]
fn verdict_of(code: u8, number: u8, first: u64, second: u64) -> RunAnswer
    ensures { result ≡ run_answer_in code number first second }
{
    match code {
        JUDGED => RunAnswer::Judged(first, second),
        _ => RunAnswer::Refused(number, second),
    }
}

// Lays what a stream has behind its monitor over the state.
fn put_tail(
    tail: [u8; TAIL_SIZE],
    letters: [u8; NUMBER_SIZE],
    first: [u8; NUMBER_SIZE],
    second: [u8; NUMBER_SIZE],
    state: &mut [u8],
)
    requires { stream_size ≤ length state.old }
    ensures { state.new ≡ take monitor_size state.old
        ++ tail_then tail letters first second (drop stream_size state.old) }
{
    lay(state, TAIL, &tail);
    lay(state, LETTERS, &letters);
    lay(state, FIRST, &first);
    lay(state, SECOND, &second);
}

/// Stores a stream. For callers that have checked the room.
pub fn put_stream(kind: u8, s: Stream, state: &mut [u8])
    requires { stream_size ≤ length state.old }
    ensures { KeepsStream kind s state.old state.new }
{
    let run = s.run;
    let monitor = run.monitor;
    let verdict = run.verdict;
    let phase = s.phase;
    put_monitor(kind, monitor, state);
    let letters = octets(run.letters);
    let first = octets(first_number(verdict));
    let second = octets(second_number(verdict));
    let tail = [
        phase_code(phase),
        s.high,
        verdict_code(verdict),
        refusal_number(verdict),
    ];
    put_tail(tail, letters, first, second, state);
}

/// The stream in a state.
pub fn stream_in(state: &[u8]) -> Stream
    requires { stream_size ≤ length state.now }
    ensures { result ≡ stream_in state.now }
{
    let monitor = monitor_in(state);
    let letters = number_at(state, LETTERS);
    let first = number_at(state, FIRST);
    let second = number_at(state, SECOND);
    let verdict = verdict_of(state[TAIL + 2], state[TAIL + 3], first, second);
    let phase = phase_of(state[TAIL]);
    let run = Run {
        monitor,
        letters,
        verdict,
    };
    Stream {
        phase,
        high: state[TAIL + 1],
        run,
    }
}
