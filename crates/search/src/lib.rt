// The verdict on a macro: what the search over its pairs has found, with the packed trace of an execution and its model.
#![tactic(auto)]

ghost use Rattle.std.specs.Prelude.{◌≡◌, ◌+◌, ◌*◌, ◌/◌, ◌%◌, ◌≤◌, ◌<◌, ◌∷◌, length, drop, ◌++◌};
ghost use Rattle.records.specs.Records.{record_bytes};
ghost use Rattle.letters.specs.Editions.{first_edition};
ghost use Rattle.letters.specs.Encoding.{encode_header, encode_letter};
ghost use Rattle.search.specs.Trails.{letter_of_branch, trail_of};
ghost use Rattle.search.specs.Tracing.{unit_bytes, trace_bytes, last_letter, most_moves, Older, word_or_zero, traced};
ghost use Rattle.search.specs.Modelling.{ModelWrittenBehind};
ghost use Rattle.search.specs.Answering.{answer_of, Delivers};
ghost use Rattle.semantics.specs.Models.{Feasible};
ghost use Rattle.verdict_theory.specs.Demand3.{Demand3};
ghost use Rattle.verdict_theory.specs.Verdict.{breaking, failing};
ghost use Rattle.search.specs.MacroSearch.{HoldsMacro, Tells};

use blocks::PointEntry;
use exploration::{POINTS, Stop, letter_of, search_pairs};
use letters::limits::{MOST_LETTERS, UNIT_BYTES};
use letters::reasons::{Reason, Refused};
use letters::words::{encode_header, encode_letter};
use letters::{Header, Letter};
use model_writer::{Shown, show};
use syntax::CompiledMacro;

// ---- the packed trace of an execution

/// How many bytes the longest trace has: a header, and as many letters as the whole-trace engine takes.
pub const TRACE_BYTES: usize = UNIT_BYTES + UNIT_BYTES * MOST_LETTERS;

// An array with a start, since memory is fixed.
/// A packed trace, at the end of the bytes, from `start` on.
#[derive(Clone, Copy)]
pub struct Packed {
    /// Room for the longest trace.
    pub bytes: [u8; TRACE_BYTES],
    /// Where the trace begins.
    pub start: usize,
}

impl Packed {
    // Puts a word before the trace.
    fn put(&mut self, word: u16)
        requires room { unit_bytes ≤ self.old.start }
        requires within { self.old.start ≤ trace_bytes }
        ensures bytes { drop self.new.start self.new.bytes ≡ word / 256 ∷ word % 256 ∷ drop self.old.start self.old.bytes }
        ensures start { self.new.start + unit_bytes ≡ self.old.start }
    {
        self.start -= UNIT_BYTES;
        self.bytes[self.start..self.start + UNIT_BYTES].copy_from_slice(&word.to_be_bytes());
    }

    // The trace.
    fn trace(&self) -> &[u8]
        requires { self.now.start ≤ trace_bytes }
        ensures { result.now ≡ drop self.now.start self.now.bytes }
    {
        &self.bytes[self.start..]
    }

    // Writes the trace over the front of the output, and leaves the bytes behind it.
    fn write(&self, output: &mut [u8])
        requires within { self.now.start ≤ trace_bytes }
        requires room { trace_bytes ≤ self.now.start + length output.old }
        ensures { output.new ≡ drop self.now.start self.now.bytes ++ drop (length (drop self.now.start self.now.bytes)) output.old }
    {
        let trace = self.trace();
        output[..trace.len()].copy_from_slice(trace);
    }

    // Writes the shown model of the trace behind the place of the trace in the output; whether it fits.
    fn show_behind(&self, output: &mut [u8]) -> bool
        requires within { self.now.start ≤ trace_bytes }
        requires room { trace_bytes ≤ self.now.start + length output.old }
        ensures { ModelWrittenBehind (drop self.now.start self.now.bytes) output.old result output.new }
    {
        let trace = self.trace();
        match show(trace, &mut output[trace.len()..]) {
            Ok(Shown::Model(_)) => true,
            Ok(Shown::Infeasible(_)) | Err(_) => false,
        }
    }
}

// The word of a letter; 0 for one that is not well formed.
fn letter_word(header: Header, letter: Letter) -> u16
    ensures { result ≡ word_or_zero (encode_letter first_edition header letter) }
{
    encode_letter(header, letter).unwrap_or(0)
}

// The word of a header; 0 for one that is not well formed.
fn header_word(header: Header) -> u16
    ensures { result ≡ word_or_zero (encode_header first_edition header) }
{
    encode_header(header).unwrap_or(0)
}

// The letter that a branch performs at pair j.
fn letter_at(points: &[PointEntry; POINTS], table: &[u8], j: usize, branch: usize) -> Letter
    requires { record_bytes * j + record_bytes ≤ length table.now }
    ensures { result ≡ letter_of_branch points.now table.now j branch }
{
    letter_of(points[table::point_at(table, j) % POINTS], branch)
}

// The trace of the execution that move number d ends, written from its end.
fn pack(header: Header, points: &[PointEntry; POINTS], table: &[u8], d: usize) -> Packed
    requires few { d < most_moves }
    requires fits { record_bytes * (d / 2) + record_bytes ≤ length table.now }
    requires older { Older table.now (d / 2 + 1) }
    ensures trace { drop result.start result.bytes ≡ traced header (trail_of points.now table.now d) }
    ensures start { result.start ≤ last_letter }
{
    let mut packed = Packed {
        bytes: [0; TRACE_BYTES],
        start: TRACE_BYTES,
    };
    let mut j = d / 2;
    packed.put(letter_word(header, letter_at(points, table, j, d % 2)));
    // The way leads from each pair to its parent: no iterator of the library walks along it.
    while j != 0 {
        let parent = table::parent_at(table, j);
        let letter = letter_at(points, table, parent, table::branch_at(table, j));
        packed.put(letter_word(header, letter));
        j = parent;
    }
    packed.put(header_word(header));
    packed
}

// ---- the answer for an event

/// What is answered where nothing is refused.
#[derive(Clone, Copy)]
pub enum Verdict {
    /// Pass, with the count of pairs.
    Pass(usize),
    /// Fail, with the counts of pairs and of letters.
    Fail(usize, usize),
    /// Incoherent, with the counts of pairs and of letters.
    Incoherent(usize, usize),
}

// The answer for an incoherent execution of so many pairs: its trace, if it fits the output.
fn deliver_incoherent(packed: &Packed, count: usize, output: &mut [u8]) -> Result<Verdict, Refused>
    requires { packed.now.start ≤ last_letter }
    ensures { Delivers breaking packed.now count output.old result output.new }
{
    let n = TRACE_BYTES - packed.start;
    if output.len() < n {
        return Err(Reason::OutputTooSmall.at(0));
    }
    packed.write(output);
    Ok(Verdict::Incoherent(count, (n - UNIT_BYTES) / UNIT_BYTES))
}

// The answer for a failing execution: its trace and then its model, if they fit the output. The model is written first: it alone can fail to fit.
fn deliver_failing(packed: &Packed, count: usize, output: &mut [u8]) -> Result<Verdict, Refused>
    requires { packed.now.start ≤ last_letter }
    ensures { Delivers failing packed.now count output.old result output.new }
{
    let n = TRACE_BYTES - packed.start;
    if output.len() < n {
        return Err(Reason::OutputTooSmall.at(0));
    }
    if !packed.show_behind(output) {
        return Err(Reason::OutputTooSmall.at(0));
    }
    packed.write(output);
    Ok(Verdict::Fail(count, (n - UNIT_BYTES) / UNIT_BYTES))
}

// ---- the search over a macro

// Searches all executions of a macro that was read, and answers. The table is left as the search has filled it.
fn search_macro(
    program: CompiledMacro,
    table: &mut [u8],
    output: &mut [u8],
) -> Result<Verdict, Refused>
    requires { HoldsMacro program }
    ensures { Tells program table.old output.old result output.new }
{
    let n = table::capacity(table.len());
    let header = program.header;
    let end = program.count as usize;
    match search_pairs(header, program.points, end, table, n) {
        Ok(count) => Ok(Verdict::Pass(count)),
        Err(Stop::Full) => Err(Reason::TableTooSmall.at(0)),
        Err(Stop::Breaking(count, d)) => {
            deliver_incoherent(&pack(header, &program.points, table, d), count, output)
        }
        Err(Stop::Failing(count, d)) => {
            deliver_failing(&pack(header, &program.points, table, d), count, output)
        }
    }
}

/// The verdict on the macro of a text, over all its executions. The table is room for pairs, 192 bytes each; after a search it is all zero.
/// The output gets the execution of the first event, packed, and on fail its model behind it; pass and a refusal leave it as it is.
pub fn judge_macro(text: &[u8], table: &mut [u8], output: &mut [u8]) -> Result<Verdict, Refused>
    ensures { Demand3 Feasible text.now table.old output.old (answer_of result) table.new output.new }
{
    let program = syntax::compiled(text)?;
    let answer = search_macro(program, table, output);
    table::clear(table);
    answer
}
