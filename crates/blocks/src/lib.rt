// Statements and blocks of a macro, and the table of its points (SPEC 8.3, 9.3).
#![tactic(auto)]

ghost use Rattle.std.specs.Prelude.{◌≡◌};
ghost use Rattle.blocks.specs.Held.{kind_of, kind_number, unused_point, backpatched, redirected, progress, outcome};
ghost use Rattle.blocks.specs.Outcome.{begins, PlainRead, BlockRead, StatementRead, BracesRead, ElseRead, ConditionalRead, RepeatRead};

use letters::Letter;
use letters::reasons::{Reason, Refused};
use phrases::Scope;
use tokens::Token;

mod points;

pub use points::Points;

/// What a point does.
#[derive(Clone, Copy, Debug, PartialEq, Eq)]
pub enum PointKind {
    /// It performs its letter: an assignment or an assume.
    Step,
    /// It fails where its test fails: an assert.
    Check,
    /// It goes on by its test: an if or a while.
    Fork,
}

// The numbers stay beside `PointKind`, for what may not change: `search_pairs` took points whose kind was any number, and `From` gives each its kind.
/// The number of the kind of a point that is an assignment or an assume.
pub const STEP: u8 = 0;

/// The number of the kind of a point that is an assert.
pub const CHECK: u8 = 1;

/// The number of the kind of a point that is an if or a while.
pub const FORK: u8 = 2;

impl From<PointKind> for u8 {
    ghost from_gives = { λ k n. n ≡ kind_number k };

    fn from(kind: PointKind) -> u8 {
        match kind {
            PointKind::Step => STEP,
            PointKind::Check => CHECK,
            PointKind::Fork => FORK,
        }
    }
}

impl From<u8> for PointKind {
    ghost from_gives = { λ n k. k ≡ kind_of n };

    /// The kind that a number stands for: an if or a while where it is no other's.
    fn from(number: u8) -> PointKind {
        match number {
            STEP => PointKind::Step,
            CHECK => PointKind::Check,
            _ => PointKind::Fork,
        }
    }
}

/// A point of a macro.
#[derive(Clone, Copy)]
pub struct PointEntry {
    /// What it does.
    pub kind: PointKind,
    /// The letter that it performs; of a condition, its test as written.
    pub letter: Letter,
    /// The point that follows; of an if or a while, where the condition holds.
    pub first: u16,
    /// Of an if or a while, the point that follows where the opposite holds; else 0.
    pub second: u16,
}

/// The most points that a macro has.
pub const MOST_POINTS: u16 = 256;

/// The entries of a table of points.
pub const POINT_SPACE: usize = MOST_POINTS as usize;

// While a text is read, what follows and is not yet known: the number of no point.
const UNKNOWN: u16 = MOST_POINTS;

/// What stands in a table where there is no point.
pub fn unused_point() -> PointEntry
    ensures { result ≡ unused_point }
{
    PointEntry {
        kind: PointKind::Step,
        letter: Letter::Copy {
            target: 0,
            source: 0,
        },
        first: 0,
        second: 0,
    }
}

fn follow(n: u16, f: u16) -> u16
    ensures { result ≡ backpatched f n }
{
    if n == UNKNOWN { f } else { n }
}

impl PointEntry {
    // The point with f for what follows and is not yet known.
    fn redirected(self, f: u16) -> PointEntry
        ensures { result ≡ redirected f self }
    {
        PointEntry {
            first: follow(self.first, f),
            second: follow(self.second, f),
            ..self
        }
    }
}

// Where the points in a range begin; at what follows if there are none.
fn begin(from: u16, to: u16, follow: u16) -> u16
    ensures { result ≡ begins from to follow }
{
    if from < to { from } else { follow }
}

/// Statements up to the block's end, `}` or the end of the text, which is answered. Blocks in it lie at most `depth` deep.
/// Their points go into the table behind those that were read.
#[cycle(block_braces_conditional_otherwise_repeat_statement)]
pub fn block(
    scope: &Scope,
    from: usize,
    depth: usize,
    points: &mut Points,
) -> Result<usize, Refused>
    ensures { BlockRead scope.now.text.now scope.now.registers.now scope.now.functions.now scope.now.arities.now scope.now.first_test depth
        (progress from points.old) (outcome result points.new) }
{
    let first = points.count;
    let mut at = from;
    // a `loop`, since where the next statement begins is known only behind this one
    loop {
        let t = tokens::next(scope.text, at);
        if t.key == tokens::RBRACE || t.key == tokens::END {
            return Ok(at);
        }
        let next = points.count;
        at = statement(scope, at, depth, points)?;
        points.join(first, next);
    }
}

// One statement.
#[cycle(block_braces_conditional_otherwise_repeat_statement)]
fn statement(scope: &Scope, at: usize, depth: usize, points: &mut Points) -> Result<usize, Refused>
    ensures { StatementRead scope.now.text.now scope.now.registers.now scope.now.functions.now scope.now.arities.now scope.now.first_test depth
        (progress at points.old) (outcome result points.new) }
{
    let t = tokens::next(scope.text, at);
    if t.key == tokens::IF {
        return conditional(scope, t.end, depth, points);
    }
    if t.key == tokens::WHILE {
        return repeat(scope, t.end, depth, points);
    }
    plain(scope, at, t, points)
}

// A statement with no block in it, of which t is the first token.
fn plain(scope: &Scope, at: usize, t: Token, points: &mut Points) -> Result<usize, Refused>
    ensures { PlainRead scope.now.text.now scope.now.registers.now scope.now.functions.now scope.now.arities.now scope.now.first_test t
        (progress at points.old) (outcome result points.new) }
{
    let k = t.key;
    if k == tokens::SKIP {
        return phrases::expect(scope.text, tokens::SEMICOLON, t.end);
    }
    if k == tokens::ASSUME {
        let (condition, e) = scope.tested(t.end)?;
        points.pose(PointKind::Step, condition);
        return Ok(e);
    }
    if k == tokens::ASSERT {
        let (condition, e) = scope.tested(t.end)?;
        points.pose(PointKind::Check, condition);
        return Ok(e);
    }
    if tokens::is_name(k) {
        let (letter, e) = scope.assignment(at)?;
        points.push(PointKind::Step, letter, UNKNOWN);
        return Ok(e);
    }
    Err(phrases::unfitting(t))
}

// Behind `if`.
#[cycle(block_braces_conditional_otherwise_repeat_statement)]
fn conditional(
    scope: &Scope,
    at: usize,
    depth: usize,
    points: &mut Points,
) -> Result<usize, Refused>
    ensures { ConditionalRead scope.now.text.now scope.now.registers.now scope.now.functions.now scope.now.arities.now scope.now.first_test depth
        (progress at points.old) (outcome result points.new) }
{
    let (condition, a) = scope.condition(at)?;
    points.pose(PointKind::Fork, condition);
    let test = points.count - 1;
    let b = braces(scope, a, depth, points)?;
    let mid = points.count;
    let e = otherwise(scope, b, depth, points)?;
    points.branch(test, mid);
    Ok(e)
}

// Perhaps an `else` and its block.
#[cycle(block_braces_conditional_otherwise_repeat_statement)]
fn otherwise(scope: &Scope, at: usize, depth: usize, points: &mut Points) -> Result<usize, Refused>
    ensures { ElseRead scope.now.text.now scope.now.registers.now scope.now.functions.now scope.now.arities.now scope.now.first_test depth
        (progress at points.old) (outcome result points.new) }
{
    let t = tokens::next(scope.text, at);
    if t.key == tokens::ELSE {
        return braces(scope, t.end, depth, points);
    }
    Ok(at)
}

// Behind `while`.
#[cycle(block_braces_conditional_otherwise_repeat_statement)]
fn repeat(scope: &Scope, at: usize, depth: usize, points: &mut Points) -> Result<usize, Refused>
    ensures { RepeatRead scope.now.text.now scope.now.registers.now scope.now.functions.now scope.now.arities.now scope.now.first_test depth
        (progress at points.old) (outcome result points.new) }
{
    let back = points.count;
    let (condition, a) = scope.condition(at)?;
    points.pose(PointKind::Fork, condition);
    let test = points.count - 1;
    let e = braces(scope, a, depth, points)?;
    points.repeat_from(test, back);
    Ok(e)
}

// A block in braces, one deeper.
#[cycle(block_braces_conditional_otherwise_repeat_statement)]
fn braces(scope: &Scope, at: usize, depth: usize, points: &mut Points) -> Result<usize, Refused>
    ensures { BracesRead scope.now.text.now scope.now.registers.now scope.now.functions.now scope.now.arities.now scope.now.first_test depth
        (progress at points.old) (outcome result points.new) }
{
    let t = tokens::next(scope.text, at);
    if t.key == tokens::LBRACE {
        if depth == 0 {
            return Err(Reason::NestingTooDeep.at(t.start as u64));
        }
        let e = block(scope, t.end, depth - 1, points)?;
        return phrases::expect(scope.text, tokens::RBRACE, e);
    }
    Err(phrases::unfitting(t))
}
