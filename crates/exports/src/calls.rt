// The monitor for Rust and C, a letter a call, and the run over a trace whose bytes come in parts of any lengths. What is kept between the calls
// stands in a lent state of a fixed size; a state that is too short or of another kind stays and is answered by NO_STATE, the other numbers 0.
ghost use Rattle.std.specs.Prelude.{◌≡◌, ◌≤◌, length};
ghost use Rattle.states.specs.States.{monitor_size};
ghost use Rattle.exports.specs.MonitorCalls.{holds_state, outcome_number, stepped_numbers, KeepsStep, StartsMonitor, StepsMonitor};
ghost use Rattle.streaming.specs.Monitor.{ended, after};
ghost use Rattle.streaming.specs.Meanings.{Starts};
ghost use Rattle.exports.specs.MonitorCalls.{AsksUnequal, AsksClasses};
ghost use Rattle.exports.specs.MonitorCalls.{StartsStream, PushesStream, FinishesStream};

use super::{RUN_NUMBERS, run_numbers, store};
use letters::reasons::Reason;
use records::flagged;
use states::{MONITOR_SIZE, STREAM_SIZE, monitor_in, put_monitor, put_stream, stream_in};
use streaming::{Monitor, Stream};
use unequal_flags::unequal_word;

// The first byte of a state: what it is.
const MONITOR: u8 = 1;

const STREAM: u8 = 2;

// What is answered for a state that is too short or of another kind; SPEC 11 has no such number.
const NO_STATE: u64 = 255;

// How many numbers a call of the monitor answers, and how many a call that asks it for its unequal pairs or its classes.
const STEP_NUMBERS: usize = 4;

const ASKED_NUMBERS: usize = 2;

// Whether a state is long enough and of this kind.
#[tactic(auto, unfolding(crate::specs::MonitorCalls::holds_state))]
fn holds(kind: u8, size: usize, state: &[u8]) -> bool
    requires { 1 ≤ size }
    ensures { result ≡ holds_state kind size state.now }
{
    size <= state.len() && state[0] == kind
}

// The number of a call's refusal, 0 for none.
fn outcome_number(outcome: Result<(), Reason>) -> u64
    ensures { result ≡ outcome_number (ended outcome) }
{
    match outcome {
        Ok(()) => 0,
        Err(reason) => u64::from(u8::from(reason)),
    }
}

// The numbers of what a call of the monitor answers.
#[tactic(auto, unfolding(crate::specs::MonitorCalls::stepped_numbers))]
fn stepped_numbers(outcome: Result<(), Reason>, monitor: &Monitor) -> [u64; STEP_NUMBERS]
    ensures { result ≡ stepped_numbers (after outcome monitor.now) }
{
    [
        outcome_number(outcome),
        0,
        u64::from(flagged(monitor.running)),
        u64::from(flagged(monitor.window.infeasible)),
    ]
}

// Stores the monitor after a call that was not refused.
fn keep(outcome: Result<(), Reason>, monitor: Monitor, state: &mut [u8])
    requires { monitor_size ≤ length state.old }
    ensures { KeepsStep (after outcome monitor) state.old state.new }
{
    if let Ok(()) = outcome {
        put_monitor(MONITOR, monitor, state);
    }
}

// Starts a monitor with the word of a header; the idle one stands for a refused start.
fn started(header: u16) -> (Result<(), Reason>, Monitor)
    ensures { Starts header (after result.0 result.1) }
{
    match Monitor::start(header) {
        Ok(monitor) => (Ok(()), monitor),
        Err(reason) => (Err(reason), Monitor::idle()),
    }
}

/// Starts a monitor with the word of a header: the refusal and its place, 0 for none; 1 if the monitor runs; 1 if its trace is infeasible.
#[unsafe(no_mangle)]
pub extern "C" fn fadzgime_monitor_start(header: u16, state: &mut [u8], answer: &mut [u64])
    ensures { StartsMonitor header state.old answer.old state.new answer.new }
{
    if answer.len() < STEP_NUMBERS {
        return;
    }
    if state.len() < MONITOR_SIZE {
        let none = [NO_STATE, 0, 0, 0];
        store(&none, answer);
        return;
    }
    let (outcome, monitor) = started(header);
    keep(outcome, monitor, state);
    store(&stepped_numbers(outcome, &monitor), answer);
}

/// Takes the word of a letter: the refusal and its place, 0 for none; 1 if the monitor runs, all letters taken being coherent; 1 if the longest
/// coherent beginning of the letters taken is infeasible. A refused letter is none of them.
#[unsafe(no_mangle)]
pub extern "C" fn fadzgime_monitor_step(letter: u16, state: &mut [u8], answer: &mut [u64])
    ensures { StepsMonitor letter state.old answer.old state.new answer.new }
{
    if answer.len() < STEP_NUMBERS {
        return;
    }
    if holds(MONITOR, MONITOR_SIZE, state) {
        let mut monitor = monitor_in(state);
        let outcome = monitor.step(letter);
        keep(outcome, monitor, state);
        store(&stepped_numbers(outcome, &monitor), answer);
        return;
    }
    let none = [NO_STATE, 0, 0, 0];
    store(&none, answer);
}

/// The unequal pairs of the longest coherent beginning of the letters taken: 0 or NO_STATE, and a word, whose bit 8 a + b is set exactly where a and b
/// name classes that are known to be unequal.
#[unsafe(no_mangle)]
pub extern "C" fn fadzgime_monitor_unequal(state: &[u8], answer: &mut [u64])
    ensures { AsksUnequal state.now answer.old answer.new }
{
    if answer.len() < ASKED_NUMBERS {
        return;
    }
    if holds(MONITOR, MONITOR_SIZE, state) {
        let monitor = monitor_in(state);
        let numbers = [0, unequal_word(monitor.window)];
        store(&numbers, answer);
        return;
    }
    let none = [NO_STATE, 0];
    store(&none, answer);
}

/// How many classes the longest coherent beginning of the letters taken has: 0 or NO_STATE, and the number that the state has stored.
#[unsafe(no_mangle)]
pub extern "C" fn fadzgime_monitor_classes(state: &[u8], answer: &mut [u64])
    ensures { AsksClasses state.now answer.old answer.new }
{
    if answer.len() < ASKED_NUMBERS {
        return;
    }
    if holds(MONITOR, MONITOR_SIZE, state) {
        let monitor = monitor_in(state);
        let count = monitor.window.class_count() as u64;
        let numbers = [0, count];
        store(&numbers, answer);
        return;
    }
    let none = [NO_STATE, 0];
    store(&none, answer);
}

/// Begins the run over a trace whose bytes come in parts: 0, or NO_STATE.
#[unsafe(no_mangle)]
pub extern "C" fn fadzgime_stream_start(state: &mut [u8], answer: &mut [u64])
    ensures { StartsStream state.old answer.old state.new answer.new }
{
    if answer.len() < 1 {
        return;
    }
    if state.len() < STREAM_SIZE {
        answer[0] = NO_STATE;
        return;
    }
    put_stream(STREAM, Stream::start(), state);
    answer[0] = 0;
}

/// Takes the next bytes of the trace, any number of them: 0, or NO_STATE.
#[unsafe(no_mangle)]
pub extern "C" fn fadzgime_stream_push(bytes: &[u8], state: &mut [u8], answer: &mut [u64])
    ensures { PushesStream bytes.now state.old answer.old state.new answer.new }
{
    if answer.len() < 1 {
        return;
    }
    if holds(STREAM, STREAM_SIZE, state) {
        let mut stream = stream_in(state);
        stream.push_all(bytes);
        put_stream(STREAM, stream, state);
        answer[0] = 0;
        return;
    }
    answer[0] = NO_STATE;
}

/// The answer for the bytes that have come, as the bytes of a whole trace: that of `fadzgime_monitor`, or NO_STATE.
#[unsafe(no_mangle)]
pub extern "C" fn fadzgime_stream_finish(state: &[u8], answer: &mut [u64])
    ensures { FinishesStream state.now answer.old answer.new }
{
    if answer.len() < RUN_NUMBERS {
        return;
    }
    if holds(STREAM, STREAM_SIZE, state) {
        let verdict = stream_in(state).finish();
        let numbers = run_numbers(verdict);
        store(&numbers, answer);
        return;
    }
    let none = [NO_STATE, 0, 0, 0];
    store(&none, answer);
}
