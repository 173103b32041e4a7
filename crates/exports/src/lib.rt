// The proved functions for Rust and C: numbers and slices. A slice passes as a pointer and its length.
// Each function stores its answer as numbers over the front of a lent slice. If the slice is too short for them, nothing is done.
#![tactic(auto)]

ghost use Rattle.std.specs.Prelude.{◌≡◌, ◌++◌, ◌≤◌, length, drop};
ghost use Rattle.streaming.specs.Demand2.{Demand2};
ghost use Rattle.streaming.specs.Run.{run_answer};
ghost use Rattle.streaming.specs.Stream.{judged_bytes};
ghost use Rattle.model_writer.specs.Answer.{shown_answer};
ghost use Rattle.exports.specs.Numbers.{run_count, model_count, run_numbers, monitored, model_numbers, modelled, model_output, ModelMeans, ReadsMacro};
ghost use Rattle.exports.specs.Held.{held_numbers};
ghost use Rattle.search.specs.Answering as search;
ghost use Rattle.exports.specs.Judging.{verdict_numbers, Judging};

use letters::reasons::Refused;
use model_writer::Shown;
use search::Verdict;
use streaming::RunAnswer;
use syntax::MacroRead;

/// Traces written and read.
pub mod packing;
/// The house layout of a macro.
pub mod layouts;
/// The monitor, a letter a call, and the run over a trace in parts.
pub mod calls;

// How many numbers a call answers.
const RUN_NUMBERS: usize = 4;

const MODEL_NUMBERS: usize = 4;

const MACRO_NUMBERS: usize = 5;

const VERDICT_NUMBERS: usize = 5;

// Stores the numbers over the front of the answer.
fn store(numbers: &[u64], answer: &mut [u64])
    requires { length numbers.now ≤ length answer.old }
    ensures { answer.new ≡ numbers.now ++ drop (length numbers.now) answer.old }
{
    answer[..numbers.len()].copy_from_slice(numbers);
}

// The numbers of what the run over a trace answers.
#[tactic(auto, unfolding(crate::specs::Numbers::run_numbers))]
fn run_numbers(verdict: RunAnswer) -> [u64; RUN_NUMBERS]
    ensures { result ≡ run_numbers (run_answer verdict) }
{
    match verdict {
        RunAnswer::Judged(incoherent, infeasible) => [0, 0, incoherent, infeasible],
        RunAnswer::Refused(number, place) => [number as u64, place, 0, 0],
    }
}

// The calls have one skeleton, and stay: C calls each by a name of its own, and each has its contract.
/// Judges a packed trace of any length: the refusal and its place; the first incoherent letter; the first infeasible letter before
/// it. Each is 0 for none. Where `answer` has room for the four, the trace is judged, as demand 2 says.
#[unsafe(no_mangle)]
pub extern "C" fn fadzgime_monitor(trace: &[u8], answer: &mut [u64])
    ensures answer_after { answer.new ≡ monitored trace.now answer.old }
    ensures demand2 { run_count ≤ length answer.old → Demand2 trace.now (run_answer (judged_bytes trace.now)) }
{
    if answer.len() < RUN_NUMBERS {
        return;
    }
    let verdict = streaming::byte_stream::judge_trace(trace);
    let numbers = run_numbers(verdict);
    store(&numbers, answer);
}

// The numbers of what is shown for a trace.
#[tactic(auto, unfolding(crate::specs::Numbers::model_numbers))]
fn model_numbers(shown: Result<Shown, Refused>) -> [u64; MODEL_NUMBERS]
    ensures { result ≡ model_numbers (shown_answer shown) }
{
    match shown {
        Ok(Shown::Model(bytes)) => [0, 0, 0, bytes as u64],
        Ok(Shown::Infeasible(letter)) => [0, 0, letter, 0],
        Err(refused) => [u8::from(refused.reason) as u64, refused.place, 0, 0],
    }
}

/// Shows a data model of a packed trace of at most 1,024 letters: the refusal and its place; the first infeasible letter; the bytes of
/// the packed model, which stands at the front of the output. Each is 0 for none. Where `answer` has room for the four, they mean what
/// `model_writer::show` says: the bytes describe a model of all tests, or there is none.
#[unsafe(no_mangle)]
pub extern "C" fn fadzgime_model(trace: &[u8], out: &mut [u8], answer: &mut [u64])
    ensures answer_after { answer.new ≡ modelled trace.now (length out.old) answer.old }
    ensures out_after { out.new ≡ model_output trace.now out.old answer.old }
    ensures model_means { model_count ≤ length answer.old → ModelMeans trace.now out.old out.new }
{
    if answer.len() < MODEL_NUMBERS {
        return;
    }
    let shown = model_writer::show(trace, out);
    let numbers = model_numbers(shown);
    store(&numbers, answer);
}

// The numbers of what reading a text gives.
#[tactic(auto, unfolding(crate::specs::Held::held_numbers))]
fn macro_numbers(read: MacroRead) -> [u64; MACRO_NUMBERS]
    ensures { result ≡ held_numbers read }
{
    let program = read.program;
    let header = program.header;
    [
        read.refusal as u64,
        read.place as u64,
        header.registers as u64,
        header.functions as u64,
        program.count as u64,
    ]
}

/// Reads a macro: the refusal and its place, 0 for none; the counts of its registers (hidden ones too), functions (tests too) and points, 0 on a refusal.
#[unsafe(no_mangle)]
pub extern "C" fn fadzgime_read(text: &[u8], answer: &mut [u64])
    ensures { ReadsMacro text.now answer.old answer.new }
{
    if answer.len() < MACRO_NUMBERS {
        return;
    }
    let read = syntax::read(text);
    let numbers = macro_numbers(read);
    store(&numbers, answer);
}

// The numbers of the verdict on a macro.
fn verdict_numbers(verdict: Result<Verdict, Refused>) -> [u64; VERDICT_NUMBERS]
    ensures { result ≡ verdict_numbers (search.answer_of verdict) }
{
    match verdict {
        Ok(Verdict::Pass(pairs)) => [0, 0, 0, pairs as u64, 0],
        Ok(Verdict::Fail(pairs, letters)) => [0, 0, 1, pairs as u64, letters as u64],
        Ok(Verdict::Incoherent(pairs, letters)) => [0, 0, 2, pairs as u64, letters as u64],
        Err(refused) => [u8::from(refused.reason) as u64, refused.place, 0, 0, 0],
    }
}

/// The verdict on a macro over all its executions: the refusal and its place, 0 for none; 0 for pass, 1 for fail, 2 for incoherent; the pairs;
/// the letters of the execution of the first event, 0 for none. That execution stands packed at the front of the output, on fail its model
/// behind it. The table is room for pairs, 192 bytes each; after a search it is all zero.
#[unsafe(no_mangle)]
pub extern "C" fn fadzgime_verdict(
    text: &[u8],
    table: &mut [u8],
    out: &mut [u8],
    answer: &mut [u64],
)
    ensures { Judging text.now table.old out.old answer.old
        table.new out.new answer.new }
{
    if answer.len() < VERDICT_NUMBERS {
        return;
    }
    let verdict = search::judge_macro(text, table, out);
    let numbers = verdict_numbers(verdict);
    store(&numbers, answer);
}
