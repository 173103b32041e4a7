// The phrases of a statement: uses, conditions and assignments (SPEC 8.3, 8.4).
#![tactic(auto)]

ghost use Rattle.std.specs.Prelude.{◌≡◌, ◌≤◌, length, position};
ghost use Rattle.letters.specs.Editions.{most_registers};
ghost use Rattle.grammar.specs.Reading.{is_declared, expect as expectAt, use_t, sign_t};
ghost use Rattle.tokens.specs.Words.{same_name};
ghost use Rattle.phrases.specs.Codes.{unfit, coded, plain, without_value, sign_of, comparing};

use letters::Letter;
use letters::reasons::{Reason, Refused};
use tokens::Token;

mod scope;

pub use scope::Scope;

/// What stands between two registers that are compared.
#[derive(Clone, Copy, Debug, PartialEq, Eq)]
pub enum Sign {
    /// `=`.
    Equal,
    /// `!=`.
    Unequal,
}

/// A condition that was read.
#[derive(Clone, Copy)]
pub struct Condition {
    /// Of a named test, the letter that applies it.
    pub application: Option<Letter>,
    /// Its test.
    pub test: Letter,
}

// The place of a name in a list.
fn find(list: &[u64], k: u64) -> Option<usize>
    ensures { result ≡ position (λ name. same_name k name) list.now }
{
    list.iter().position(|name| tokens::same_name(k, *name))
}

/// Whether a name is in a list.
pub fn is_known(list: &[u64], k: u64) -> bool
    ensures { result ≡ is_declared k list.now }
{
    find(list, k).is_some()
}

/// The refusal of a token that does not fit the grammar.
pub fn unfitting(t: Token) -> Refused
    ensures { result ≡ unfit t }
{
    if t.key == tokens::WRONG {
        return Reason::TokenMalformed.at(t.start as u64);
    }
    Reason::GrammarViolated.at(t.start as u64)
}

/// One token k at or after a place: the place after it.
pub fn expect(text: &[u8], k: u64, at: usize) -> Result<usize, Refused>
    ensures { result ≡ without_value (expectAt text.now k at) }
{
    let t = tokens::next(text, at);
    if t.key == k {
        return Ok(t.end);
    }
    Err(unfitting(t))
}

// A name of a list, as its place in the list, and the place after it.
fn use_of(t: Token, list: &[u64]) -> Result<(u8, usize), Refused>
    requires { length list.now ≤ most_registers }
    ensures { result ≡ plain (use_t list.now t) }
{
    let k = t.key;
    if !tokens::is_name(k) {
        return Err(unfitting(t));
    }
    match find(list, k) {
        Some(i) => Ok((i as u8, t.end)),
        None => Err(Reason::UseWrong.at(t.start as u64)),
    }
}

impl Sign {
    // `=` or `!=`, and the place after it.
    fn of(t: Token) -> Result<(Sign, usize), Refused>
        ensures { result ≡ coded sign_of (sign_t t) }
    {
        match t.key {
            tokens::EQUAL => Ok((Sign::Equal, t.end)),
            tokens::UNEQUAL => Ok((Sign::Unequal, t.end)),
            _ => Err(unfitting(t)),
        }
    }

    // The test of two registers by the sign.
    fn test(self, first: u8, second: u8) -> Letter
        ensures { result ≡ comparing self first second }
    {
        match self {
            Sign::Equal => Letter::Equal { first, second },
            Sign::Unequal => Letter::Unequal { first, second },
        }
    }
}
