// The shown model of a trace (SPEC 7): the values of the classes, the rows, and their bytes.
#![tactic(auto)]

ghost use Rattle.std.specs.Prelude.{◌≡◌, suc, ◌+◌, ◌<◌, ◌≤◌, length, take, cond};
ghost use Rattle.letters.specs.Editions.{first_edition, most_functions};
ghost use Rattle.semantics.specs.PackedTables.{units, pack_tables, second_written, row_bytes, word_bytes};
ghost use Rattle.model_writer.specs.Values.{Valued};
ghost use Rattle.engine.specs.Run.{Begun, reading_from};
ghost use Rattle.model_writer.specs.Inserted.{inserted};
ghost use Rattle.model_writer.specs.Answer.{Showed};
ghost use Rattle.model_writer.specs.Stages.{Stopped};
ghost use Rattle.model_writer.specs.Bytes.{value_range, joined_of, put_five};
ghost use Rattle.model_writer.specs.Structs.{NumberableTerms, RowBefore, NewRowIn, ListableTerms, ListedTerms, RowOf, word_of, words_of, StartsOf, RowsOf};
ghost use Rattle.model_writer.specs.Structs.{WritableModel, tables_of_model, PuttableModel, PutModel, ComputedTerms, ModelledTerms};

use closure::{CHAINS, Index, Numbers, TERMS, Terms};
use letters::limits::{MOST_LETTERS, UNIT_BYTES};
use letters::reasons::{Reason, Refused};
use letters::{Header, words};

// The bytes of a row, and of the other numbers of a model.
const ROW_BYTES: usize = 5;

const WORD_BYTES: usize = 2;

// "count of values 16 bits, count of rows 16".
const COUNTS_BYTES: usize = 2 * WORD_BYTES;

// What the fields of a row count in its number: function 2 bits, argument 11, argument 11, result 11, spare 5.
const VALUE_RANGE: u64 = 2048;

const ROW_RESULT: u64 = 32;

const ROW_SECOND: u64 = VALUE_RANGE * ROW_RESULT;

const ROW_FIRST: u64 = VALUE_RANGE * ROW_SECOND;

const ROW_FUNCTION: u64 = VALUE_RANGE * ROW_FIRST;

/// What is shown for a trace.
#[derive(Clone, Copy, Debug, PartialEq, Eq)]
pub enum Shown {
    /// A model of so many bytes was written to the front of the output.
    Model(usize),
    /// The number of the first infeasible letter, from 1.
    Infeasible(u64),
}

// An array with a count, since memory is fixed.
// The model of the computed terms: a value for each term, and the applications that have a row.
#[derive(Drop)]
struct Model {
    // How many values there are, 0 counted.
    count: u16,
    // The value of each term.
    values: Numbers,
    // How many rows there are.
    rows_count: usize,
    // The applications that have one, in order of computation.
    rows: Numbers,
}

// Gives each class a value, from 1 on by first term. The result is how many values there are, 0 counted.
fn number(terms: &Terms, values: &mut Numbers) -> u16
    requires { NumberableTerms terms.now values.old }
    ensures { Valued terms.now.representative terms.now.count values.new result }
{
    let mut next: u16 = 1;
    for i in 0..terms.count {
        let name = terms.representative[i] as usize;
        if name == i {
            values[i] = next;
            next += 1;
        } else {
            values[i] = values[name];
        }
    }
    next
}

// Whether application i is the first with its signature. The index has the earlier ones, and then i too.
fn new_row(terms: &Terms, index: &mut Index, i: usize) -> bool
    requires { RowBefore terms.now index.old i }
    ensures { NewRowIn terms.now i index.new (cond result 1 0) }
{
    let c = terms.signature_at(i);
    index.enter(terms, i, c) == i
}

// Lists the applications that have a row, in order of computation. The result is how many there are.
fn list(terms: &Terms, rows: &mut Numbers) -> usize
    requires { ListableTerms terms.now rows.old }
    ensures { ListedTerms terms.now rows.new result }
{
    let mut index = Index {
        head: [0; CHAINS],
        link: [0; TERMS],
    };
    let mut r: usize = 0;
    for i in terms.registers..terms.count {
        rows[r] = i as u16;
        if new_row(terms, &mut index, i) {
            r += 1;
        }
    }
    r
}

// Here and below the buffer and the place stay two parameters: the buffer is lent (C interface), and each part has a place of its own.
// Writes a row's number.
fn put_five(out: &mut [u8], at: usize, word: u64)
    requires { at + 4 < length out.old }
    ensures { out.new ≡ put_five out.old at word }
{
    let bytes = word.to_be_bytes();
    out[at..at + ROW_BYTES].copy_from_slice(&bytes[bytes.len() - ROW_BYTES..]);
}

// The second argument as it is written: 0 for a function of one argument.
fn second_written(header: Header, f: u16, b: u16) -> u16
    requires { f < most_functions }
    ensures { result ≡ second_written header f b }
{
    if words::takes_two(header, f as u8) {
        b
    } else {
        0
    }
}

// The fields of a row put together: function 2, argument 11, argument 11, result 11, spare 5.
fn joined(f: u16, a: u16, b: u16, c: u16) -> u64
    requires { (f < most_functions) × (a < value_range) × (b < value_range) × (c < value_range) }
    ensures { result ≡ joined_of f a b c }
{
    f as u64 * ROW_FUNCTION + a as u64 * ROW_FIRST + b as u64 * ROW_SECOND + c as u64 * ROW_RESULT
}

impl Model {
    // The row of application i as one number.
    fn row_word(&self, header: Header, terms: &Terms, i: usize) -> u64
        requires { RowOf terms.now self.now.values i }
        ensures { result ≡ word_of header terms.now self.now.values i }
    {
        let f = terms.function[i];
        let a = self.values[terms.first[i] as usize];
        let b = self.values[terms.second[i] as usize];
        joined(f, a, second_written(header, f, b), self.values[i])
    }

    // Writes the initial values from `at` on.
    fn write_starts(&self, registers: usize, out: &mut [u8], at: usize)
        requires { StartsOf self.now registers (length out.old) at }
        ensures { out.new ≡ inserted at (units word_bytes (take registers self.now.values)) out.old }
    {
        for i in 0..registers {
            words::put_word(out, at + WORD_BYTES * i, self.values[i]);
        }
    }

    // Writes the rows from `at` on.
    fn write_rows(&self, header: Header, terms: &Terms, out: &mut [u8], at: usize)
        requires { RowsOf terms.now self.now (length out.old) at }
        ensures { out.new ≡ inserted at (units row_bytes (words_of header terms.now self.now)) out.old }
    {
        for k in 0..self.rows_count {
            let word = self.row_word(header, terms, self.rows[k] as usize);
            put_five(out, at + ROW_BYTES * k, word);
        }
    }

    // Writes the count of values, that of rows, the initial values, the rows.
    fn write(&self, header: Header, terms: &Terms, out: &mut [u8])
        requires { WritableModel header terms.now self.now (length out.old) }
        ensures { out.new ≡ inserted 0 (pack_tables first_edition header (tables_of_model header terms.now self.now)) out.old }
    {
        let registers = header.registers as usize;
        words::put_word(out, 0, self.count);
        words::put_word(out, WORD_BYTES, self.rows_count as u16);
        self.write_starts(registers, out, COUNTS_BYTES);
        self.write_rows(header, terms, out, COUNTS_BYTES + WORD_BYTES * registers);
    }

    // Writes the model where it fits the output.
    fn put(&self, header: Header, terms: &Terms, out: &mut [u8]) -> Result<Shown, Refused>
        requires { PuttableModel header terms.now self.now (length out.old) }
        ensures { PutModel header terms.now self.now out.old result out.new }
    {
        let length = COUNTS_BYTES
            + WORD_BYTES * (header.registers as usize)
            + ROW_BYTES * self.rows_count;
        if out.len() < length {
            return Err(Reason::OutputTooSmall.at(0));
        }
        self.write(header, terms, out);
        Ok(Shown::Model(length))
    }
}

// Shows the model of the computed terms where it fits the output. It is not inlined, nor is `engine::run`: so the model takes the place on the stack that
// the engine's parts had.
#[inline(never)]
fn show_model(header: Header, terms: &Terms, out: &mut [u8]) -> Result<Shown, Refused>
    requires { ComputedTerms header terms.now × (terms.now.registers ≡ header.registers) }
    ensures { ModelledTerms header terms.now out.old result out.new }
{
    let mut model = Model {
        count: 0,
        values: [0; TERMS],
        rows_count: 0,
        rows: [0; TERMS],
    };
    model.count = number(terms, &mut model.values);
    model.rows_count = list(terms, &mut model.rows);
    model.put(header, terms, out)
}

// Names the first infeasible letter k, unless a letter after it is not well formed: question 4 is asked of all letters.
fn name_infeasible(header: Header, trace: &[u8], letters: usize, k: u64) -> Result<Shown, Refused>
    requires { Begun trace.now header letters }
    ensures { Stopped header (reading_from trace.now header letters k) k result }
{
    match engine::first_malformed(header, trace, letters, k as usize) {
        None => Ok(Shown::Infeasible(k)),
        Some(broken) => Err(Reason::LetterMalformed.at(broken)),
    }
}

// Shows what is due for a trace whose header was read.
fn show_trace(
    header: Header,
    trace: &[u8],
    letters: usize,
    out: &mut [u8],
) -> Result<Shown, Refused>
    requires { Begun trace.now header letters }
    ensures { Showed trace.now out.old result out.new }
{
    let mut terms = Terms {
        registers: 0,
        count: 0,
        function: [0; TERMS],
        first: [0; TERMS],
        second: [0; TERMS],
        representative: [0; TERMS],
    };
    match engine::run(header, trace, letters, &mut terms)? {
        Some(k) => name_infeasible(header, trace, letters, k),
        None => show_model(header, &terms, out),
    }
}

/// Judges a packed trace of at most 1,024 letters: writes its shown model to the front of the output if it is feasible, else names
/// the first infeasible letter. The written bytes read back to the tables that SPEC 7 asks for, in which all tests hold; where a letter
/// is named, no model satisfies all tests (`specs/Answer.antt`, `Means`).
pub fn show(trace: &[u8], out: &mut [u8]) -> Result<Shown, Refused>
    ensures { Showed trace.now out.old result out.new }
{
    let header = traces::read_beginning(trace)?;
    let letters = trace.len() / UNIT_BYTES - 1;
    if MOST_LETTERS < letters {
        return Err(Reason::TraceTooLong.at(0));
    }
    show_trace(header, trace, letters, out)
}
