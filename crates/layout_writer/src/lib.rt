// The house layout of a macro, written into a lent buffer (SPEC 8.6). The print is made from the tokens of a text that was accepted, one after the other:
// its names are declared before they are used, so that the first token with a name's number is the one that declares it.
#![tactic(auto)]

ghost use Rattle.std.specs.Prelude.{◌≡◌, ◌&&◌, ◌++◌, ◌≤◌, eqb, length};
ghost use Rattle.tokens.specs.Words as word;
ghost use Rattle.text.specs.Appending.{Appended, PlaceInRange};
ghost use Rattle.text.specs.Names.{name_text};
ghost use Rattle.grammar.specs.Limits.{longest_text};
ghost use Rattle.layout_theory.specs.Layout.{is_word, ends_line, blank_before, line_end};
ghost use Rattle.layout_theory.specs.Writing.{WritesLayout};
ghost use Rattle.layout_writer.specs.Answer.{layout_answer};
ghost use Rattle.layout_writer.specs.Tokens.{FirstSpelled, PrintedAs, empty_block_at, LaysOut};

use letters::reasons::{Reason, Refused};
use syntax::LONGEST_TEXT;
use text::Writer;
use tokens::BYTE_VALUES;

/// No longer print is written.
pub const LONGEST_PRINT: usize = LONGEST_TEXT;

const SPACE: u8 = b' ';

const LINE_FEED: u8 = b'\n';

// The tokens before the first name that is declared: `vars`.
const BEFORE_NAMES: usize = 1;

// The tokens of a block without statements: `{` and `}`.
const EMPTY_BLOCK: usize = 2;

// Whether a token is a name, a keyword, `1` or `2`.
fn is_word(token: u64) -> bool
    ensures { result ≡ is_word token }
{
    let first = (token % BYTE_VALUES) as u8;
    tokens::is_letter(first) || tokens::is_digit(first)
}

// Whether an LF follows a token.
fn ends_line(token: u64) -> bool
    ensures { result ≡ ends_line token }
{
    matches!(token, tokens::SEMICOLON | tokens::LBRACE | tokens::RBRACE)
}

// How the first token at or after `from` that is known by this number is spelled.
fn first_spelling(text: &[u8], from: usize, key: u64) -> u64
    ensures { FirstSpelled text.now from key result }
{
    let mut at = from;
    // no `for`: the next place is where the token ends
    while at < text.len() {
        let t = tokens::next(text, at);
        if t.key == key {
            return t.spelling;
        }
        if t.key <= tokens::WRONG {
            return key;
        }
        at = t.end;
    }
    key
}

// A token of a text as it is printed: a name as it is declared behind `from`, any other in lower case.
fn printed_token(text: &[u8], from: usize, key: u64) -> u64
    ensures { PrintedAs text.now from key result }
{
    if tokens::is_name(key) {
        first_spelling(text, from, key)
    } else {
        key
    }
}

// Whether a block without statements stands at or after a place.
fn is_empty_block(text: &[u8], from: usize) -> bool
    ensures { result ≡ empty_block_at text.now from }
{
    let first = tokens::next(text, from);
    first.key == tokens::LBRACE && tokens::next(text, first.end).key == tokens::RBRACE
}

// Appends the blank before a token, if there is one.
fn put_blank(writer: &mut Writer, follows: bool, token: u64)
    requires { PlaceInRange writer.old.at (blank_before follows token) }
    ensures same_buffer { writer.new.out.ghost_name ≡ writer.old.out.ghost_name }
    ensures appended { Appended writer.old.out.now writer.old.at (blank_before follows token) writer.new.out.now writer.new.at }
{
    if follows && is_word(token) {
        writer.put_byte(SPACE);
    }
}

// Appends the LF behind a token, if there is one.
fn put_line_end(writer: &mut Writer, token: u64)
    requires { PlaceInRange writer.old.at (line_end token) }
    ensures same_buffer { writer.new.out.ghost_name ≡ writer.old.out.ghost_name }
    ensures appended { Appended writer.old.out.now writer.old.at (line_end token) writer.new.out.now writer.new.at }
{
    if ends_line(token) {
        writer.put_byte(LINE_FEED);
    }
}

// Appends a token with the blank before it and the LF behind it.
fn put_token(writer: &mut Writer, follows: bool, token: u64)
    requires { PlaceInRange writer.old.at (blank_before follows token ++ (name_text token ++ line_end token)) }
    ensures same_buffer { writer.new.out.ghost_name ≡ writer.old.out.ghost_name }
    ensures appended { Appended writer.old.out.now writer.old.at (blank_before follows token ++ (name_text token ++ line_end token))
        writer.new.out.now writer.new.at }
{
    put_blank(writer, follows, token);
    writer.put_name(token);
    put_line_end(writer, token);
}

// Whether a token that is known by `key` and ends at `end` begins an else without statements.
fn is_empty_else(text: &[u8], key: u64, end: usize) -> bool
    ensures { result ≡ (eqb key word.else_key && empty_block_at text.now end) }
{
    key == tokens::ELSE && is_empty_block(text, end)
}

// Appends the print of a text's macro at the front of a buffer.
fn put_tokens(text: &[u8], writer: &mut Writer)
    requires short { length text.now ≤ longest_text }
    requires front { writer.old.at ≡ 0 }
    ensures same_buffer { writer.new.out.ghost_name ≡ writer.old.out.ghost_name }
    ensures laid { LaysOut text.now writer.old.out.now writer.new.at writer.new.out.now }
{
    let names = tokens::skip_tokens(text, 0, BEFORE_NAMES);
    let mut at: usize = 0;
    let mut follows = false;
    // no `for`: the next place is where the token ends
    while at < text.len() {
        let t = tokens::next(text, at);
        if t.key <= tokens::WRONG {
            return;
        }
        if is_empty_else(text, t.key, t.end) {
            at = tokens::skip_tokens(text, t.end, EMPTY_BLOCK);
        } else {
            let token = printed_token(text, names, t.key);
            put_token(writer, follows, token);
            follows = is_word(token);
            at = t.end;
        }
    }
}

// Puts the print of a text's macro into the front of a buffer, as far as the buffer goes, and answers how long it is.
fn lay_out(text: &[u8], out: &mut [u8]) -> usize
    requires { length text.now ≤ longest_text }
    ensures { LaysOut text.now out.old result out.new }
{
    let mut writer = Writer::new(out);
    put_tokens(text, &mut writer);
    writer.at
}

/// Prints the macro of a text in the house layout into the front of a lent buffer. Nothing is written on a refusal: by 7 to 13 or 16 as the
/// reader gives them, or by 15 where the print is longer than the buffer or than `LONGEST_PRINT`. The bytes behind the print stay.
pub fn write_layout(text: &[u8], out: &mut [u8]) -> Result<usize, Refused>
    ensures { WritesLayout text.now out.old (layout_answer result) out.new }
{
    syntax::compiled(text)?;
    // the print is measured before a byte of it is written
    let size = lay_out(text, &mut []);
    if LONGEST_PRINT < size || out.len() < size {
        return Err(Reason::PrintTooLong.at(0));
    }
    Ok(lay_out(text, out))
}
