// What is declared, where statements are read, and the phrases that use it.
ghost use Rattle.phrases.specs.Codes.{Few};

use super::{Condition, Sign, expect, unfitting, use_of};
use letters::Letter;
use letters::reasons::{Reason, Refused};
use tokens::Token;

// Two slices of functions, since `Few` and the readers' definitions speak of two lists.
/// A text, and what is declared in it: its registers, its functions with its tests behind them, and how many arguments each of these takes.
#[derive(Clone, Copy)]
pub struct Scope<'a> {
    /// The text.
    pub text: &'a [u8],
    /// The names of the registers.
    pub registers: &'a [u64],
    /// The names of the functions, and behind them those of the tests.
    pub functions: &'a [u64],
    /// How many arguments each of them takes.
    pub arities: &'a [u8],
    /// The number of the first test.
    pub first_test: u8,
    pub ghost few: { Few registers.now functions.now arities.now first_test },
}

impl Scope<'_> {
    ghost use Rattle.std.specs.Prelude.{◌≡◌, ◌≤◌, length};
    ghost use Rattle.letters.specs.declared.Letter.TheVariants.{Apply};
    ghost use Rattle.grammar.specs.Tree.{letter_of};
    ghost use Rattle.grammar.specs.Expanded.{result_register, truth_register};
    ghost use Rattle.grammar.specs.Reading.{use_between, use_t, comparison as comparisonAt, arguments_t, applied, named_test as namedTestAt};
    ghost use Rattle.grammar.specs.Reading.{condition as conditionAt, ended_condition as testedAt, right_hand_side as value_at};
    ghost use Rattle.grammar.specs.Reading.{assignment as assignmentAt};
    ghost use Rattle.tokens.specs.Tokens.{token_at};
    ghost use Rattle.phrases.specs.Codes.{plain, lettered, same_letter, condition_by, second_at, call_at, asked, test_of};

    // A register, as its number.
    fn register(&self, at: usize) -> Result<(u8, usize), Refused>
        ensures { result ≡ plain (use_t self.now.registers.now (token_at self.now.text.now at)) }
    {
        use_of(tokens::next(self.text, at), self.registers)
    }

    // A function, as its number, which lies from one number to another.
    fn function(&self, t: Token, from: u8, to: u8) -> Result<(u8, usize), Refused>
        requires { to ≤ length self.now.functions.now }
        ensures { result ≡ plain (use_between self.now.functions.now from to t) }
    {
        let (f, e) = use_of(t, self.functions)?;
        if from <= f && f < to {
            return Ok((f, e));
        }
        Err(Reason::UseWrong.at(t.start as u64))
    }

    // The hidden register that a named test applies its function into: the first one behind the declared registers.
    fn result_register(&self) -> u8
        ensures { result ≡ result_register (length self.now.registers.now) }
    {
        self.registers.len() as u8
    }

    // The hidden register that it is then compared with: the next one.
    fn truth_register(&self) -> u8
        ensures { result ≡ truth_register (length self.now.registers.now) }
    {
        self.result_register() + 1
    }

    // A comparison, as its test.
    fn comparison(&self, at: usize) -> Result<(Letter, usize), Refused>
        ensures { result ≡ lettered (test_of (length self.now.registers.now)) (comparisonAt self.now.text.now self.now.registers.now at) }
    {
        let (x, a) = self.register(at)?;
        let (sign, b) = Sign::of(tokens::next(self.text, a))?;
        let (y, e) = self.register(b)?;
        Ok((sign.test(x, y), e))
    }

    // Behind the first argument y of the function f, which takes n.
    // Each number by itself, since a struct of them would be made for this one call and taken apart in it.
    fn arguments(&self, n: u8, x: u8, f: u8, y: u8, at: usize) -> Result<(Letter, usize), Refused>
        ensures { result
            ≡ lettered same_letter (arguments_t self.now.text.now self.now.registers.now (Apply x f) n y (token_at self.now.text.now at)) }
    {
        let t = tokens::next(self.text, at);
        if t.key == tokens::COMMA {
            if n == 2 {
                return self.second_argument(x, f, y, t.end);
            }
            return Err(Reason::UseWrong.at(t.start as u64));
        }
        if t.key == tokens::RPAREN {
            if n == 2 {
                return Err(Reason::UseWrong.at(t.start as u64));
            }
            let letter = Letter::Apply {
                target: x,
                function: f,
                first: y,
                second: y,
            };
            return Ok((letter, t.end));
        }
        Err(unfitting(t))
    }

    // Behind `,`: the second argument of the function f, and `)`.
    fn second_argument(&self, x: u8, f: u8, y: u8, at: usize) -> Result<(Letter, usize), Refused>
        ensures { result ≡ lettered same_letter (second_at self.now.text.now self.now.registers.now x f y at) }
    {
        let (z, a) = self.register(at)?;
        let e = expect(self.text, tokens::RPAREN, a)?;
        Ok((
            Letter::Apply {
                target: x,
                function: f,
                first: y,
                second: z,
            },
            e,
        ))
    }

    // `(` and the arguments of the function f, which takes n, as the letter that applies it into the register x.
    fn application(&self, n: u8, x: u8, f: u8, at: usize) -> Result<(Letter, usize), Refused>
        ensures { result ≡ lettered same_letter (applied self.now.text.now self.now.registers.now (Apply x f) n at) }
    {
        let b = expect(self.text, tokens::LPAREN, at)?;
        let (y, e) = self.register(b)?;
        self.arguments(n, x, f, y, e)
    }

    // A function by its name, from one number to another, and its arguments, as the letter that applies it into the register x.
    fn call(&self, from: u8, to: u8, x: u8, at: usize) -> Result<(Letter, usize), Refused>
        requires { to ≤ length self.now.functions.now }
        ensures { result
            ≡ lettered same_letter
            (call_at self.now.text.now self.now.registers.now self.now.functions.now self.now.arities.now (Apply x) from to at) }
    {
        let (f, a) = self.function(tokens::next(self.text, at), from, to)?;
        let n = self.arities[f as usize];
        self.application(n, x, f, a)
    }

    // A test by its name, and its arguments: as the condition that it holds, or, by the other sign, that it fails.
    fn named_test(&self, sign: Sign, at: usize) -> Result<(Condition, usize), Refused>
        ensures { result ≡ asked (length self.now.registers.now)
            (namedTestAt self.now.text.now self.now.registers.now self.now.functions.now self.now.arities.now self.now.first_test (condition_by sign) at) }
    {
        let register = self.result_register();
        let (applied, e) = self.call(self.first_test, self.functions.len() as u8, register, at)?;
        let test = sign.test(register, self.truth_register());
        Ok((
            Condition {
                application: Some(applied),
                test,
            },
            e,
        ))
    }

    /// A condition, and the place after it.
    pub fn condition(&self, at: usize) -> Result<(Condition, usize), Refused>
        ensures { result ≡ asked (length self.now.registers.now)
            (conditionAt self.now.text.now self.now.registers.now self.now.functions.now self.now.arities.now self.now.first_test at) }
    {
        let t = tokens::next(self.text, at);
        if t.key == tokens::NOT {
            return self.named_test(Sign::Unequal, t.end);
        }
        let u = tokens::next(self.text, t.end);
        if u.key == tokens::LPAREN {
            return self.named_test(Sign::Equal, at);
        }
        let (test, e) = self.comparison(at)?;
        Ok((
            Condition {
                application: None,
                test,
            },
            e,
        ))
    }

    /// A condition and `;`, and the place after it.
    pub fn tested(&self, at: usize) -> Result<(Condition, usize), Refused>
        ensures { result ≡ asked (length self.now.registers.now)
            (testedAt self.now.text.now self.now.registers.now self.now.functions.now self.now.arities.now self.now.first_test at) }
    {
        let (condition, a) = self.condition(at)?;
        let e = expect(self.text, tokens::SEMICOLON, a)?;
        Ok((condition, e))
    }

    // Behind `x :=`: a register, or a function of one or two.
    fn value(&self, x: u8, at: usize) -> Result<(Letter, usize), Refused>
        ensures { result ≡ lettered letter_of
            (value_at self.now.text.now self.now.registers.now self.now.functions.now self.now.arities.now self.now.first_test x at) }
    {
        let t = tokens::next(self.text, at);
        let u = tokens::next(self.text, t.end);
        if u.key == tokens::LPAREN {
            return self.call(0, self.first_test, x, at);
        }
        let (y, e) = use_of(t, self.registers)?;
        Ok((
            Letter::Copy {
                target: x,
                source: y,
            },
            e,
        ))
    }

    /// An assignment, as its letter, and the place after it.
    pub fn assignment(&self, at: usize) -> Result<(Letter, usize), Refused>
        ensures { result ≡ lettered letter_of
            (assignmentAt self.now.text.now self.now.registers.now self.now.functions.now self.now.arities.now self.now.first_test at) }
    {
        let (x, a) = self.register(at)?;
        let b = expect(self.text, tokens::BECOMES, a)?;
        let (letter, c) = self.value(x, b)?;
        let e = expect(self.text, tokens::SEMICOLON, c)?;
        Ok((letter, e))
    }
}
