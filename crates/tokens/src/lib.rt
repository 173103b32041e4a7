// The tokens of a macro's text (SPEC 8.1, 8.2).
#![tactic(auto)]

ghost use Rattle.std.specs.Prelude.{◌≡◌, true, false, ◌+◌, ◌≤◌, ◌<◌, eqb, get_or, length, drop};
ghost use Rattle.std.specs.List.{take_while};
ghost use Rattle.std.proofs.Math.Seq.{slice};
ghost use Rattle.tokens.specs.Bytes.{blank, lowered, letter, digit, inner, symbol, negation, mark, gap, name_length, longest_name, width};
ghost use Rattle.tokens.specs.Tokens.{token_at, NumbersOf, place_behind, spellings};
ghost use Rattle.tokens.specs.Words.{keyword, is_name, same_name};

/// The most bytes that a name has.
pub const LONGEST_NAME: usize = 8;

/// Bytes are held as one number: they are its digits to this base, the first byte lowest.
pub const BYTE_VALUES: u64 = 256;

// Words and signs, as the numbers of their bytes. They stay numbers and are no enum: the definitions (`Token` of specs/Tokens.antt, `key`, `word.vars_key`)
// say of a token what number its bytes make, of names as of words. They are written out, since a constant's value holds no call (`u64::from_le_bytes`).

/// What stands for the end of the text.
pub const END: u64 = 0;

/// What stands where there is no token.
pub const WRONG: u64 = 1;

/// The word `vars`.
pub const VARS: u64 = 0x73726176;

/// The word `funs`.
pub const FUNS: u64 = 0x736e7566;

/// The word `tests`.
pub const TESTS: u64 = 0x7374736574;

/// The word `skip`.
pub const SKIP: u64 = 0x70696b73;

/// The word `assume`.
pub const ASSUME: u64 = 0x656d75737361;

/// The word `assert`.
pub const ASSERT: u64 = 0x747265737361;

/// The word `if`.
pub const IF: u64 = 0x6669;

/// The word `else`.
pub const ELSE: u64 = 0x65736c65;

/// The word `while`.
pub const WHILE: u64 = 0x656c696877;

/// The word `result`, the name of a hidden register.
pub const RESULT: u64 = 0x746c75736572;

/// The word `truth`, the name of a hidden register.
pub const TRUTH: u64 = 0x6874757274;

/// The sign `1`.
pub const ONE: u64 = b'1' as u64;

/// The sign `2`.
pub const TWO: u64 = b'2' as u64;

/// The sign `:=`.
pub const BECOMES: u64 = 0x3d3a;

/// The sign `=`.
pub const EQUAL: u64 = b'=' as u64;

/// The sign `!=`.
pub const UNEQUAL: u64 = 0x3d21;

/// The sign `!`.
pub const NOT: u64 = b'!' as u64;

/// The sign `;`.
pub const SEMICOLON: u64 = b';' as u64;

/// The sign `,`.
pub const COMMA: u64 = b',' as u64;

/// The sign `(`.
pub const LPAREN: u64 = b'(' as u64;

/// The sign `)`.
pub const RPAREN: u64 = b')' as u64;

/// The sign `{`.
pub const LBRACE: u64 = b'{' as u64;

/// The sign `}`.
pub const RBRACE: u64 = b'}' as u64;

/// The sign `/`.
pub const SLASH: u64 = b'/' as u64;

/// A token.
#[derive(Clone, Copy)]
pub struct Token {
    /// Its bytes in lower case as one number, digits to base `BYTE_VALUES`, the first byte lowest; `END` at the end of the text, `WRONG` for what is
    /// no token. Two names or words are the same exactly if these are equal.
    pub key: u64,
    /// Its bytes as they are spelled, as one number of the same form; `END` at the end of the text, `WRONG` for what is no token.
    pub spelling: u64,
    /// The place of its first byte.
    pub start: usize,
    /// The place behind it.
    pub end: usize,
}

// The two numbers of a token.
#[derive(Clone, Copy)]
struct TokenNumbers {
    // of its bytes in lower case
    key: u64,
    // of its bytes as they stand
    spelling: u64,
}

fn is_blank(b: u8) -> bool
    ensures { result ≡ blank b }
{
    // most bytes are above the blank, which one comparison tells
    b <= b' ' && matches!(b, b' ' | b'\t' | b'\r' | b'\n')
}

// The byte in lower case.
fn lowered(b: u8) -> u8
    ensures { result ≡ lowered b }
{
    b.to_ascii_lowercase()
}

/// Whether a byte is a letter.
pub fn is_letter(b: u8) -> bool
    ensures { result ≡ letter b }
{
    b.is_ascii_alphabetic()
}

/// Whether a byte is a digit.
pub fn is_digit(b: u8) -> bool
    ensures { result ≡ digit b }
{
    b.is_ascii_digit()
}

fn is_inner(b: u8) -> bool
    ensures { result ≡ inner b }
{
    b.is_ascii_alphanumeric() || b == b'_'
}

fn is_symbol(b: u8) -> bool
    ensures { result ≡ symbol b }
{
    matches!(
        b,
        b'1' | b'2' | b'=' | b';' | b',' | b'(' | b')' | b'{' | b'}' | b'/'
    )
}

fn is_negation(b: u8) -> bool
    ensures { result ≡ negation b }
{
    b == b'!'
}

fn is_mark(b: u8) -> bool
    ensures { result ≡ mark b }
{
    b == b':' || is_negation(b)
}

// The first place at or after `from` that is no blank and in no comment.
fn skip_gap(text: &[u8], from: usize) -> usize
    ensures { result ≡ from + gap false (drop from text.now) }
{
    let mut comment = false;
    for at in from..text.len() {
        let b = text[at];
        if comment {
            comment = b != b'\n';
        } else if !is_blank(b) {
            if b != b'#' {
                return at;
            }
            comment = true;
        }
    }
    from.max(text.len())
}

// How many bytes stand in front that a name goes on with.
fn run_length(text: &[u8]) -> usize
    ensures { result ≡ length (take_while inner text.now) }
{
    text.iter().take_while(|b| is_inner(**b)).count()
}

// The bytes from `start` to `end` as numbers.
fn numbers_of(text: &[u8], start: usize, end: usize) -> TokenNumbers
    requires { (start ≤ end) × (end ≤ length text.now) × (end ≤ start + longest_name) }
    ensures { NumbersOf (slice start end text.now) result }
{
    let mut key: u64 = 0;
    let mut spelling: u64 = 0;
    for at in (start..end).rev() {
        let b = text[at];
        key = key * BYTE_VALUES + u64::from(lowered(b));
        spelling = spelling * BYTE_VALUES + u64::from(b);
    }
    TokenNumbers { key, spelling }
}

// Whether a `=` stands behind the first byte.
fn is_paired(text: &[u8]) -> bool
    ensures { result ≡ eqb (get_or text.now 1 0) 61 }
{
    matches!(text, [_, b'=', ..])
}

// How many bytes the token in front has; 0 where there is none.
fn width_of(text: &[u8]) -> usize
    ensures { result ≡ width text.now }
{
    let [b, ..] = text else {
        return 0;
    };
    if is_letter(*b) {
        let n = run_length(text);
        return if n <= LONGEST_NAME { n } else { 0 };
    }
    if is_mark(*b) && is_paired(text) {
        return 2;
    }
    if is_negation(*b) || is_symbol(*b) {
        return 1;
    }
    0
}

/// The token at or after `from`.
pub fn next(text: &[u8], from: usize) -> Token
    ensures { result ≡ token_at text.now from }
{
    let start = skip_gap(text, from);
    if text.len() <= start {
        return Token {
            key: END,
            spelling: END,
            start: text.len(),
            end: text.len(),
        };
    }
    let width = width_of(&text[start..]);
    if width == 0 {
        return Token {
            key: WRONG,
            spelling: WRONG,
            start,
            end: start,
        };
    }
    let end = start + width;
    let numbers = numbers_of(text, start, end);
    Token {
        key: numbers.key,
        spelling: numbers.spelling,
        start,
        end,
    }
}

/// The place behind `count` tokens from `from` on.
pub fn skip_tokens(text: &[u8], from: usize, count: usize) -> usize
    ensures { result ≡ place_behind text.now from count }
{
    let mut at = from;
    for _ in 0..count {
        at = next(text, at).end;
    }
    at
}

/// Stores the spellings of tokens, as many as `out` has entries: of the one at or after `from`, and of each `step`-th behind the one before.
pub fn put_spellings(text: &[u8], from: usize, step: usize, out: &mut [u64])
    ensures { out.new ≡ spellings text.now from step (length out.old) }
{
    let mut at = from;
    for spelling in out {
        *spelling = next(text, at).spelling;
        at = skip_tokens(text, at, step);
    }
}

/// Whether a token is a word that is no name.
pub fn is_keyword(k: u64) -> bool
    ensures { result ≡ keyword k }
{
    matches!(
        k,
        VARS | FUNS | TESTS | SKIP | ASSUME | ASSERT | IF | ELSE | WHILE | RESULT | TRUTH
    )
}

/// Whether a token is a name.
pub fn is_name(k: u64) -> bool
    ensures { result ≡ is_name k }
{
    let first = (k % BYTE_VALUES) as u8;
    first.is_ascii_lowercase() && !is_keyword(k)
}

/// Whether two names are the same. It stands beside `==` so that names compare in one place, which docs/design/reader.md names.
pub fn same_name(k: u64, l: u64) -> bool
    ensures { result ≡ same_name k l }
{
    k == l
}
