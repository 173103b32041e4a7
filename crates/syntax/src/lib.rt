// The macro reader: from bytes to a macro (SPEC 8, 11.3, 11.4).
#![tactic(auto)]

ghost use Rattle.std.specs.Prelude.{◌≡◌, ◌||◌, [], ◌+◌, ◌-◌, ◌≤◌, ◌<◌, eqb, take, length};
ghost use Rattle.letters.specs.Editions.{most_registers, most_functions};
ghost use Rattle.grammar.specs.Limits.{hidden_registers};
ghost use Rattle.grammar.specs.Spelled.{line_length};
ghost use Rattle.grammar.specs.Grammar.{binary_of};
ghost use Rattle.grammar.specs.Reading.{is_declared, listed_t, register_names as registersAt, line_from, functions_t, tests_t, arity_of};
ghost use Rattle.tokens.specs.Tokens.{token_at};
ghost use Rattle.phrases.specs.Codes.{plain, read_as};
ghost use Rattle.blocks.specs.Held.{progress};
ghost use Rattle.syntax.specs.Answer.{no_macro, held_answer, held_reading, held_registers, held_functions, body_from, tests_from, functions_from};
ghost use Rattle.syntax.specs.Answer.{text_read, in_numbers};
ghost use Rattle.syntax.specs.Reads.{Reads};
ghost use Rattle.syntax.specs.Top.{RegistersPadded, FunctionsPadded, padded_registers, padded_functions, Finishes, headed, arity_flag};
ghost use Rattle.syntax.specs.Top.{hidden_count, RoomForHidden, spelled_behind};

use blocks::{POINT_SPACE, PointEntry, Points};
use letters::Header;
use letters::limits::{MOST_FUNCTIONS, MOST_REGISTERS};
use letters::reasons::{Reason, Refused};
use names::{Entries, Names};
use phrases::Scope;
use tokens::Token;

mod names;

/// The most bytes that a macro's text has.
pub const LONGEST_TEXT: usize = 4096;

// How deep braces may nest.
const DEEPEST_NESTING: usize = 16;

// The number of the token that declares the first register: it stands behind `vars`.
const FIRST_REGISTER: usize = 1;

// The tokens of a register's declaration: its name.
const REGISTER_LENGTH: usize = 1;

// The tokens before that of the first function, beside the registers: `vars`, `;` and `funs`.
const BEFORE_FUNCTIONS: usize = 3;

// The tokens of a function's entry: its name, `/` and how many arguments.
const ENTRY_LENGTH: usize = 3;

// The tokens of a line beside its entries: its word and `;`.
const BESIDE_ENTRIES: usize = 2;

// The registers that are hidden behind the declared ones where tests are declared: `result` and `truth`.
const HIDDEN_REGISTERS: usize = 2;

// Arrays with a count, for what may not change: `reads_once` speaks of these fields; and memory is fixed.
/// A macro. A name is held as one number, its bytes as they are declared as digits to base `tokens::BYTE_VALUES`, the first byte lowest; 0 stands
/// behind the last name.
#[derive(Clone, Copy)]
pub struct CompiledMacro {
    /// How many registers and functions it has, and the functions' arities.
    pub header: Header,
    /// The names of its registers, as declared; behind them, where tests are declared, `result` and `truth`.
    pub registers: [u64; MOST_REGISTERS],
    /// The names of its functions, as declared, and behind them those of its tests.
    pub functions: [u64; MOST_FUNCTIONS],
    /// Its points.
    pub points: [PointEntry; POINT_SPACE],
    /// How many points it has; also the number of the end.
    pub count: u16,
}

/// What reading a text gives.
// Numbers beside the macro, and no Result, for what may not change: the theorems on any answer of the reader (`reads_once`, `macros_have_executions`,
// `macros_have_the_executions_of_definition_2`) speak of these fields, and `fadzgime_read` hands the numbers to C.
#[derive(Clone, Copy)]
pub struct MacroRead {
    /// The number of the refusal; 0 if there is none.
    pub refusal: u8,
    /// The place of the refusal; 0 if there is none.
    pub place: usize,
    /// The macro; one without registers and points beside a refusal.
    pub program: CompiledMacro,
}

/// The registers that were read.
// Here and in `Functions` arrays with a count stand, since memory is fixed; not `Names`, for what may not change: these fields are public, and
// `held_registers` and `held_functions` make such a value of a list of any length, which `Names` does not hold.
#[derive(Clone, Copy)]
pub struct Registers {
    /// The place of the next byte.
    pub at: usize,
    /// How many there are.
    pub count: usize,
    /// Their names in lower case; 0 behind the last.
    pub names: [u64; MOST_REGISTERS],
}

/// The functions that were read, tests behind the others, with their arities.
#[derive(Clone, Copy)]
pub struct Functions {
    /// The place of the next byte.
    pub at: usize,
    /// How many there are.
    pub count: usize,
    /// Their names in lower case; 0 behind the last.
    pub names: [u64; MOST_FUNCTIONS],
    /// Their arities, 1 or 2; 0 behind the last.
    pub arities: [u8; MOST_FUNCTIONS],
}

// A text, and what is declared in it.
#[derive(Clone, Copy)]
struct Declared<'a> {
    text: &'a [u8],
    registers: Registers,
    // the functions, with the tests behind them
    functions: Functions,
    // the number of the first test
    first_test: usize,
    ghost registers_padded: { RegistersPadded registers },
    ghost functions_padded: { FunctionsPadded functions },
    ghost counted: { first_test ≤ functions.count },
    ghost room: { RoomForHidden registers functions first_test },
}

// Whether no register of this name can be declared any more.
fn is_register_taken(names: &Names<MOST_REGISTERS>, k: u64) -> bool
    ensures { result ≡ (eqb names.now.count most_registers || is_declared k (take names.now.count names.now.items)) }
{
    names.is_full() || names.holds(k)
}

// Behind the last register.
fn registers_end(names: Names<MOST_REGISTERS>, t: Token) -> Result<Registers, Refused>
    ensures { result
        ≡ read_as held_registers (listed_t [] (length (take names.count names.items)) (take names.count names.items) t) }
{
    if t.key == tokens::SEMICOLON && names.count != 0 {
        let count = names.count;
        let names = names.items;
        return Ok(Registers {
            at: t.end,
            count,
            names,
        });
    }
    Err(phrases::unfitting(t))
}

// The names of registers, and `;`.
fn read_registers(text: &[u8], from: usize) -> Result<Registers, Refused>
    ensures { result ≡ read_as held_registers (registersAt text.now most_registers [] from) }
{
    let mut names = Names::<MOST_REGISTERS>::none();
    let mut at = from;
    // a `loop`, since where the next token begins is known only behind this one, and the last one ends the line
    loop {
        let t = tokens::next(text, at);
        if !tokens::is_name(t.key) {
            return registers_end(names, t);
        }
        if is_register_taken(&names, t.key) {
            return Err(Reason::DeclarationWrong.at(t.start as u64));
        }
        names.push(t.key);
        at = t.end;
    }
}

// Whether no function of this name can be declared any more.
fn is_function_taken(regs: &[u64], names: &Names<MOST_FUNCTIONS>, k: u64) -> bool
    requires { length regs.now ≤ most_registers }
    ensures { result ≡ (eqb names.now.count most_functions
        || (is_declared k regs.now || is_declared k (take names.now.count names.now.items))) }
{
    names.is_full() || phrases::is_known(regs, k) || names.holds(k)
}

// `/` and how many arguments, and the place after that.
fn arity(text: &[u8], at: usize) -> Result<(u8, usize), Refused>
    ensures { result ≡ plain (arity_of text.now at) }
{
    let a = phrases::expect(text, tokens::SLASH, at)?;
    let t = tokens::next(text, a);
    if t.key == tokens::ONE {
        return Ok((1, t.end));
    }
    if t.key == tokens::TWO {
        return Ok((2, t.end));
    }
    Err(phrases::unfitting(t))
}

// Behind the last entry of a line, of which entry number `first` was the first.
fn functions_end(entries: Entries, first: usize, t: Token) -> Result<Functions, Refused>
    requires { first ≤ entries.names.count }
    ensures { result
        ≡ read_as held_functions (listed_t [] (length (take entries.names.count entries.names.items) - first)
        (take entries.names.count entries.names.items, take entries.names.count entries.arities) t) }
{
    if t.key == tokens::SEMICOLON && entries.names.count != first {
        let count = entries.names.count;
        let names = entries.names.items;
        let arities = entries.arities;
        return Ok(Functions {
            at: t.end,
            count,
            names,
            arities,
        });
    }
    Err(phrases::unfitting(t))
}

// The entries of a line behind the functions that were read, and `;`.
fn read_line(text: &[u8], regs: &[u64], known: Functions, from: usize) -> Result<Functions, Refused>
    requires { (length regs.now ≤ most_registers) × FunctionsPadded known }
    ensures { result
        ≡ read_as held_functions (line_from text.now regs.now (take known.count known.names) (take known.count known.arities) from) }
{
    let mut entries = Entries::of(known);
    let mut at = from;
    // a `loop`, as for registers
    loop {
        let t = tokens::next(text, at);
        if !tokens::is_name(t.key) {
            return functions_end(entries, known.count, t);
        }
        if is_function_taken(regs, &entries.names, t.key) {
            return Err(Reason::DeclarationWrong.at(t.start as u64));
        }
        let (n, e) = arity(text, t.end)?;
        entries.push(t.key, n);
        at = e;
    }
}

// Perhaps a line of functions.
fn functions_line(text: &[u8], regs: &[u64], at: usize) -> Result<Functions, Refused>
    requires { length regs.now ≤ most_registers }
    ensures { result ≡ read_as held_functions (functions_t text.now regs.now at (token_at text.now at)) }
{
    let none = Functions {
        at,
        count: 0,
        names: [0; MOST_FUNCTIONS],
        arities: [0; MOST_FUNCTIONS],
    };
    let t = tokens::next(text, at);
    if t.key == tokens::FUNS {
        return read_line(text, regs, none, t.end);
    }
    Ok(none)
}

// Perhaps a line of tests, behind the functions.
fn tests_line(text: &[u8], regs: &[u64], fs: Functions) -> Result<Functions, Refused>
    requires { (length regs.now ≤ most_registers) × FunctionsPadded fs }
    ensures { result ≡ read_as held_functions (tests_t text.now regs.now (take fs.count fs.names) (take fs.count fs.arities) fs.at
        (token_at text.now fs.at)) }
{
    let t = tokens::next(text, fs.at);
    if t.key == tokens::TESTS {
        if MOST_REGISTERS < regs.len() + HIDDEN_REGISTERS {
            return Err(Reason::NoRoomForTests.at(t.start as u64));
        }
        return read_line(text, regs, fs, t.end);
    }
    Ok(fs)
}

fn no_macro() -> CompiledMacro
    ensures { result ≡ no_macro }
{
    CompiledMacro {
        header: Header {
            registers: 0,
            functions: 0,
            binary: 0,
        },
        registers: [0; MOST_REGISTERS],
        functions: [0; MOST_FUNCTIONS],
        points: [blocks::unused_point(); POINT_SPACE],
        count: 0,
    }
}

// 1 for two arguments.
fn flag(n: u8) -> u8
    ensures { (result ≡ arity_flag n) × (result ≤ 1) }
{
    u8::from(n == 2)
}

// The functions of two arguments as a mask.
fn binary_of(arities: [u8; MOST_FUNCTIONS]) -> u8
    ensures { result ≡ binary_of arities }
{
    flag(arities[0]) + 2 * flag(arities[1]) + 4 * flag(arities[2]) + 8 * flag(arities[3])
}

// How many registers are hidden, where there are `count` functions, from number `first_test` on tests.
fn hidden_count(first_test: usize, count: usize) -> usize
    ensures { result ≡ hidden_count first_test count }
{
    if first_test < count {
        return HIDDEN_REGISTERS;
    }
    0
}

// The names of the registers as they are declared, and the hidden ones behind them.
fn register_spellings(
    text: &[u8],
    count: usize,
    first_test: usize,
    functions: usize,
) -> [u64; MOST_REGISTERS]
    requires { (count ≤ most_registers) × (first_test < functions → count + hidden_registers ≤ most_registers) }
    ensures { result ≡ padded_registers text.now count first_test functions }
{
    let mut names = [0u64; MOST_REGISTERS];
    let from = tokens::skip_tokens(text, 0, FIRST_REGISTER);
    tokens::put_spellings(text, from, REGISTER_LENGTH, &mut names[..count]);
    if first_test < functions {
        names[count] = tokens::RESULT;
        names[count + 1] = tokens::TRUTH;
    }
    names
}

// The tokens of a line of so many entries.
fn line_length(entries: usize) -> usize
    requires { entries ≤ most_functions }
    ensures { result ≡ line_length entries }
{
    if entries == 0 {
        return 0;
    }
    ENTRY_LENGTH * entries + BESIDE_ENTRIES
}

// The names with those of tests behind the first ones, as the entries from a place on spell them.
fn test_spellings(
    text: &[u8],
    functions: [u64; MOST_FUNCTIONS],
    from: usize,
    first: usize,
    count: usize,
) -> [u64; MOST_FUNCTIONS]
    requires { (first ≤ count) × (count ≤ most_functions) }
    ensures { result ≡ spelled_behind text.now from first count functions }
{
    let mut names = functions;
    tokens::put_spellings(text, from, ENTRY_LENGTH, &mut names[first..count]);
    names
}

// The names of the functions as they are declared, behind so many registers; from number `first_test` on tests.
fn function_spellings(
    text: &[u8],
    registers: usize,
    first_test: usize,
    count: usize,
) -> [u64; MOST_FUNCTIONS]
    requires { (registers ≤ most_registers) × (first_test ≤ count) × (count ≤ most_functions) }
    ensures { result ≡ padded_functions text.now registers first_test count }
{
    let mut names = [0u64; MOST_FUNCTIONS];
    let functions = registers + BEFORE_FUNCTIONS;
    let from = tokens::skip_tokens(text, 0, functions);
    tokens::put_spellings(text, from, ENTRY_LENGTH, &mut names[..first_test]);
    let tests = tokens::skip_tokens(text, 0, functions + line_length(first_test));
    test_spellings(text, names, tests, first_test, count)
}

impl Declared<'_> {
    // The counts, and the functions of two arguments.
    fn header(&self) -> Header
        ensures { result ≡ headed self.now.registers self.now.functions self.now.first_test }
    {
        let hidden = hidden_count(self.first_test, self.functions.count);
        Header {
            registers: (self.registers.count + hidden) as u8,
            functions: self.functions.count as u8,
            binary: binary_of(self.functions.arities),
        }
    }

    // The end of the text, the count of points, and the macro.
    fn finish(&self, at: usize, mut points: Points) -> Result<CompiledMacro, Refused>
        ensures { Finishes self.now.text.now self.now.registers self.now.functions self.now.first_test (progress at points) result }
    {
        let t = tokens::next(self.text, at);
        if t.key != tokens::END {
            return Err(phrases::unfitting(t));
        }
        let count = points.count;
        if blocks::MOST_POINTS < count {
            return Err(Reason::PointsTooMany.at(0));
        }
        points.redirect(0, count, count);
        let registers = self.registers.count;
        let functions = self.functions.count;
        Ok(CompiledMacro {
            header: self.header(),
            registers: register_spellings(self.text, registers, self.first_test, functions),
            functions: function_spellings(self.text, registers, self.first_test, functions),
            points: points.entries,
            count,
        })
    }

    // Behind the declarations.
    fn read_body(&self) -> Result<CompiledMacro, Refused>
        ensures { result ≡ held_answer
            (body_from self.now.text.now (take self.now.registers.count self.now.registers.names)
            (take self.now.functions.count self.now.functions.names) (take self.now.functions.count self.now.functions.arities)
            self.now.first_test self.now.functions.at) }
    {
        let scope = Scope {
            text: self.text,
            registers: &self.registers.names[..self.registers.count],
            functions: &self.functions.names[..self.functions.count],
            arities: &self.functions.arities[..self.functions.count],
            first_test: self.first_test as u8,
        };
        let mut points = Points::none();
        let at = blocks::block(&scope, self.functions.at, DEEPEST_NESTING, &mut points)?;
        self.finish(at, points)
    }
}

// Behind the functions.
fn read_tests(text: &[u8], rs: Registers, fs: Functions) -> Result<CompiledMacro, Refused>
    requires { RegistersPadded rs × FunctionsPadded fs }
    ensures { result ≡ held_answer
        (tests_from text.now (take rs.count rs.names) (take fs.count fs.names) (take fs.count fs.arities) fs.at) }
{
    let all = tests_line(text, &rs.names[..rs.count], fs)?;
    let declared = Declared {
        text,
        registers: rs,
        functions: all,
        first_test: fs.count,
    };
    declared.read_body()
}

// Behind the registers.
fn read_rest(text: &[u8], rs: Registers) -> Result<CompiledMacro, Refused>
    requires { RegistersPadded rs }
    ensures { result ≡ held_answer (functions_from text.now (take rs.count rs.names) rs.at) }
{
    let fs = functions_line(text, &rs.names[..rs.count], rs.at)?;
    read_tests(text, rs, fs)
}

/// Reads a macro, or says by which question it is refused and where.
pub fn compiled(text: &[u8]) -> Result<CompiledMacro, Refused>
    ensures { (result ≡ held_answer (text_read text.now)) × Reads text.now (in_numbers result) }
{
    if LONGEST_TEXT < text.len() {
        return Err(Reason::TextTooLong.at(0));
    }
    let a = phrases::expect(text, tokens::VARS, 0)?;
    let rs = read_registers(text, a)?;
    read_rest(text, rs)
}

/// Reads a macro: question 7, then the text token by token (8 to 12, and 16), then the count of points (13).
pub fn read(text: &[u8]) -> MacroRead
    ensures { Reads text.now result }
{
    match compiled(text) {
        Ok(program) => MacroRead {
            refusal: 0,
            place: 0,
            program,
        },
        Err(refused) => MacroRead {
            refusal: refused.reason.into(),
            place: refused.place as usize,
            program: no_macro(),
        },
    }
}
