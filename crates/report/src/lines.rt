// The lines of a report, each appended to a lent buffer.
ghost use Rattle.std.specs.Prelude.{◌≡◌, [], ◌∷◌, ◌++◌, map, ◌+◌, ◌<◌, get_or, drop};
ghost use Rattle.letters.specs.Editions.{first_edition};
ghost use Rattle.letters.specs.declared.Letter.TheVariants.{Apply};
ghost use Rattle.semantics.specs.TablesRead.{units_in, row_from, read_tables};
ghost use Rattle.semantics.specs.PackedTables.{row_bytes, word_bytes, second_written};
ghost use Rattle.text.specs.Appending.{Appended, PlaceInRange};
ghost use Rattle.text.specs.Numerals.{numeral};
ghost use Rattle.text.specs.Names.{name_text};
ghost use Rattle.text.specs.Templates.{filled_in};
ghost use Rattle.report.specs.Lines.{line, lines_of, pairs_word, letter_line, letter_lines, start_lines, row_line, model_lines};
ghost use Rattle.report.specs.Shown.{names_of, letters_in, model_start, report_of};
ghost use Rattle.report.specs.Shown.{word_values};

use super::answer::{ROW_BYTES, WORD_BYTES, letter_of, row_at, word_at};
use super::{Declared, ReportedRefusal, ReportedVerdict};
use letters::Letter;
use letters::words::takes_two;
use text::Writer;

// The bytes of a word.
const WORD_SIZE: u32 = WORD_BYTES as u32;

// The bytes of a model before its initial values: the counts of its values and of its rows.
const MODEL_HEAD: u32 = WORD_SIZE + WORD_SIZE;

// What a field of a row counts: function 2 bits, argument 11, argument 11, result 11, spare 5.
const FUNCTION: u64 = 1 << 38;

const FIRST: u64 = 1 << 27;

const SECOND: u64 = 1 << 16;

const RESULT: u64 = 1 << 5;

// How many numbers the field of a function holds, and that of a value.
const FUNCTION_VALUES: u64 = 1 << 2;

const VALUES: u64 = 1 << 11;

// Name k of those, none beyond them.
fn name_at(names: &[u64], k: u8) -> u64
    ensures { result ≡ get_or names.now k 0 }
{
    names.get(usize::from(k)).copied().unwrap_or(0)
}

// Appends the two lines that every verdict has.
fn put_verdict(writer: &mut Writer, verdict: &[u8], pairs: u64)
    requires { PlaceInRange writer.old.at (filled_in verdict.now (0 ∷ 0 ∷ 0 ∷ 0 ∷ []) ++ line (pairs_word ∷ numeral pairs ∷ [])) }
    ensures same_buffer { writer.new.out.ghost_name ≡ writer.old.out.ghost_name }
    ensures appended { Appended writer.old.out.now writer.old.at
        (filled_in verdict.now (0 ∷ 0 ∷ 0 ∷ 0 ∷ []) ++ line (pairs_word ∷ numeral pairs ∷ [])) writer.new.out.now writer.new.at }
{
    writer.put_line(verdict, [0, 0, 0, 0]);
    writer.put_line(b"pairs 4\n", [pairs, 0, 0, 0]);
}

impl Declared {
    // Appends a template with the names of two registers.
    fn put_two(&self, writer: &mut Writer, template: &[u8], a: u8, b: u8)
        requires { PlaceInRange writer.old.at (filled_in template.now (get_or self.now.registers a 0 ∷ get_or self.now.registers b 0 ∷ 0 ∷ 0 ∷ [])) }
        ensures same_buffer { writer.new.out.ghost_name ≡ writer.old.out.ghost_name }
        ensures appended { Appended writer.old.out.now writer.old.at
            (filled_in template.now (get_or self.now.registers a 0 ∷ get_or self.now.registers b 0 ∷ 0 ∷ 0 ∷ [])) writer.new.out.now writer.new.at }
    {
        let first = name_at(&self.registers, a);
        let second = name_at(&self.registers, b);
        writer.put_line(template, [first, second, 0, 0]);
    }

    // The fields of an application stay parameters: a struct of them would be `Letter` once more.
    // Appends the line of an application.
    fn put_application(&self, writer: &mut Writer, target: u8, function: u8, first: u8, second: u8)
        requires { PlaceInRange writer.old.at
            (letter_line (names_of self.now.registers self.now.functions) self.now.header (Apply target function first second)) }
        ensures same_buffer { writer.new.out.ghost_name ≡ writer.old.out.ghost_name }
        ensures appended { Appended writer.old.out.now writer.old.at
            (letter_line (names_of self.now.registers self.now.functions) self.now.header (Apply target function first second))
            writer.new.out.now writer.new.at }
    {
        let result = name_at(&self.registers, target);
        let name = name_at(&self.functions, function);
        let left = name_at(&self.registers, first);
        let right = name_at(&self.registers, second);
        if takes_two(self.header, function) {
            writer.put_line(b"0 := 1(2,3)\n", [result, name, left, right]);
        } else {
            writer.put_line(b"0 := 1(2)\n", [result, name, left, right]);
        }
    }

    // Appends the line of a letter.
    fn put_letter(&self, writer: &mut Writer, letter: Letter)
        requires { PlaceInRange writer.old.at (letter_line (names_of self.now.registers self.now.functions) self.now.header letter) }
        ensures same_buffer { writer.new.out.ghost_name ≡ writer.old.out.ghost_name }
        ensures appended { Appended writer.old.out.now writer.old.at
            (letter_line (names_of self.now.registers self.now.functions) self.now.header letter) writer.new.out.now writer.new.at }
    {
        match letter {
            Letter::Copy { target, source } => self.put_two(writer, b"0 := 1\n", target, source),
            Letter::Apply {
                target,
                function,
                first,
                second,
            } => self.put_application(writer, target, function, first, second),
            Letter::Equal { first, second } => {
                self.put_two(writer, b"assume 0 = 1\n", first, second)
            }
            Letter::Unequal { first, second } => {
                self.put_two(writer, b"assume 0 != 1\n", first, second)
            }
        }
    }

    // Appends the lines of `count` letters.
    fn put_letters(&self, writer: &mut Writer, answer: &[u8], count: u16)
        requires { PlaceInRange writer.old.at
            (lines_of (letter_line (names_of self.now.registers self.now.functions) self.now.header) (letters_in self.now.header answer.now 0 count)) }
        ensures same_buffer { writer.new.out.ghost_name ≡ writer.old.out.ghost_name }
        ensures appended { Appended writer.old.out.now writer.old.at
            (lines_of (letter_line (names_of self.now.registers self.now.functions) self.now.header) (letters_in self.now.header answer.now 0 count))
            writer.new.out.now writer.new.at }
    {
        for k in 0..usize::from(count) {
            self.put_letter(writer, letter_of(self.header, answer, k));
        }
    }

    // Appends the count of letters and their lines.
    fn put_execution(&self, writer: &mut Writer, answer: &[u8], count: u16)
        requires { PlaceInRange writer.old.at
            (letter_lines (names_of self.now.registers self.now.functions) self.now.header (letters_in self.now.header answer.now 0 count)) }
        ensures same_buffer { writer.new.out.ghost_name ≡ writer.old.out.ghost_name }
        ensures appended { Appended writer.old.out.now writer.old.at
            (letter_lines (names_of self.now.registers self.now.functions) self.now.header (letters_in self.now.header answer.now 0 count))
            writer.new.out.now writer.new.at }
    {
        let number = u64::from(count);
        writer.put_line(b"letters 4\n", [number, 0, 0, 0]);
        self.put_letters(writer, answer, count);
    }

    // Appends the lines of the initial values, which begin at `start`.
    fn put_starts(&self, writer: &mut Writer, answer: &[u8], start: u32)
        requires { PlaceInRange writer.old.at
            (start_lines (λ r. name_text (get_or self.now.registers r 0)) 0 (units_in word_bytes self.now.header.registers (drop start answer.now))) }
        ensures same_buffer { writer.new.out.ghost_name ≡ writer.old.out.ghost_name }
        ensures appended { Appended writer.old.out.now writer.old.at
            (start_lines (λ r. name_text (get_or self.now.registers r 0)) 0 (units_in word_bytes self.now.header.registers (drop start answer.now)))
            writer.new.out.now writer.new.at }
    {
        for register in 0..self.header.registers {
            let name = name_at(&self.registers, register);
            let value = word_at(
                answer,
                (start as usize) + WORD_BYTES * usize::from(register),
            );
            writer.put_line(b"start 0 5\n", [name, value, 0, 0]);
        }
    }

    // A row's second argument as it is printed: 0 for a function of one argument.
    fn second_printed(&self, function: u8, second: u64) -> u64
        ensures { result ≡ second_written self.now.header function second }
    {
        if takes_two(self.header, function) {
            second
        } else {
            0
        }
    }

    // Appends the line of a row, packed in 40 bits.
    fn put_row(&self, writer: &mut Writer, row: u64)
        requires { PlaceInRange writer.old.at
            (row_line (λ f. name_text (get_or self.now.functions f 0)) self.now.header (row_from first_edition self.now.header row)) }
        ensures same_buffer { writer.new.out.ghost_name ≡ writer.old.out.ghost_name }
        ensures appended { Appended writer.old.out.now writer.old.at
            (row_line (λ f. name_text (get_or self.now.functions f 0)) self.now.header (row_from first_edition self.now.header row))
            writer.new.out.now writer.new.at }
    {
        let function = (row / FUNCTION % FUNCTION_VALUES) as u8;
        let first = row / FIRST % VALUES;
        let second = self.second_printed(function, row / SECOND % VALUES);
        let result = row / RESULT % VALUES;
        let name = name_at(&self.functions, function);
        writer.put_line(b"row 0 5 6 7\n", [name, first, second, result]);
    }

    // Appends the lines of `count` rows, which begin at `start`.
    fn put_rows(&self, writer: &mut Writer, answer: &[u8], start: u32, count: u64)
        requires room { PlaceInRange writer.old.at (lines_of (row_line (λ f. name_text (get_or self.now.functions f 0)) self.now.header)
            (map (row_from first_edition self.now.header) (units_in row_bytes count (drop start answer.now)))) }
        requires few { count < word_values }
        ensures same_buffer { writer.new.out.ghost_name ≡ writer.old.out.ghost_name }
        ensures appended { Appended writer.old.out.now writer.old.at (lines_of (row_line (λ f. name_text (get_or self.now.functions f 0)) self.now.header)
            (map (row_from first_edition self.now.header) (units_in row_bytes count (drop start answer.now)))) writer.new.out.now writer.new.at }
    {
        for k in 0..count {
            let row = row_at(answer, (start as usize) + ROW_BYTES * (k as usize));
            self.put_row(writer, row);
        }
    }

    // Appends the lines of the model that begins at `start`.
    fn put_model(&self, writer: &mut Writer, answer: &[u8], start: u32)
        requires room { PlaceInRange writer.old.at (model_lines (names_of self.now.registers self.now.functions) self.now.header
            (read_tables first_edition self.now.header (drop start answer.now))) }
        requires near { start < model_start word_values }
        ensures same_buffer { writer.new.out.ghost_name ≡ writer.old.out.ghost_name }
        ensures appended { Appended writer.old.out.now writer.old.at (model_lines (names_of self.now.registers self.now.functions) self.now.header
            (read_tables first_edition self.now.header (drop start answer.now))) writer.new.out.now writer.new.at }
    {
        let values = word_at(answer, start as usize);
        let rows = word_at(answer, (start as usize) + WORD_BYTES);
        writer.put_line(b"values 4\n", [values, 0, 0, 0]);
        self.put_starts(writer, answer, start + MODEL_HEAD);
        let registers = self.header.registers;
        let behind = start + MODEL_HEAD + WORD_SIZE * u32::from(registers);
        self.put_rows(writer, answer, behind, rows);
    }

    // Appends the whole report of a verdict.
    fn put_report(
        &self,
        writer: &mut Writer,
        verdict: Result<ReportedVerdict, ReportedRefusal>,
        answer: &[u8],
    )
        requires { PlaceInRange writer.old.at (report_of self.now.registers self.now.functions self.now.header verdict answer.now) }
        ensures same_buffer { writer.new.out.ghost_name ≡ writer.old.out.ghost_name }
        ensures appended { Appended writer.old.out.now writer.old.at
            (report_of self.now.registers self.now.functions self.now.header verdict answer.now) writer.new.out.now writer.new.at }
    {
        match verdict {
            Ok(ReportedVerdict::Pass(pairs)) => put_verdict(writer, b"verdict pass\n", pairs),
            Ok(ReportedVerdict::Incoherent(pairs, letters)) => {
                put_verdict(writer, b"verdict incoherent\n", pairs);
                self.put_execution(writer, answer, letters);
            }
            Ok(ReportedVerdict::Fail(pairs, letters)) => {
                put_verdict(writer, b"verdict fail\n", pairs);
                self.put_execution(writer, answer, letters);
                let start = WORD_SIZE * u32::from(letters) + WORD_SIZE;
                self.put_model(writer, answer, start);
            }
            Err(refused) => {
                let number = u64::from(refused.number);
                writer.put_line(b"refused 4 at 5\n", [number, refused.place, 0, 0]);
            }
        }
    }

    /// Puts the whole report of a verdict into the front of a buffer, as far as the buffer goes, and gives how many bytes it has.
    pub(super) fn put_whole(
        &self,
        verdict: Result<ReportedVerdict, ReportedRefusal>,
        answer: &[u8],
        out: &mut [u8],
    ) -> usize
        requires { PlaceInRange 0 (report_of self.now.registers self.now.functions self.now.header verdict answer.now) }
        ensures { Appended out.old 0 (report_of self.now.registers self.now.functions self.now.header verdict answer.now) out.new result }
    {
        let mut writer = Writer::new(out);
        self.put_report(&mut writer, verdict, answer);
        writer.at
    }
}
