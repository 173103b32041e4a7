// The whole-trace engine: the closure over all computed terms of a trace, letter by letter.
//
// The terms, their classes and the index are those of crate `closure`.
#![tactic(auto)]

ghost use Rattle.std.specs.Prelude.{◌≡◌, ◌+◌, ◌<◌, ◌≤◌};
ghost use Rattle.letters.specs.Editions.{most_registers};
ghost use Rattle.closure.specs.Limits.{most_terms};
ghost use Rattle.closure.specs.Structs.{with_classes};
ghost use Rattle.engine.specs.Engine.{name_of};
ghost use Rattle.engine.specs.Structs.{AppliableTo, AppliedTo, ComputableIn, ComputingIn, EquatableIn, EquatedIn, NotableIn, NotedIn, ReadyFor, PerformedIn};
ghost use Rattle.engine.specs.Structs.{with_index, with_parted};
ghost use Rattle.engine.specs.Run.{Begun, BlankTerms, Began, RunningIn, RanTo, reading_from, RestRead};

use closure::{CHAINS, Index, Numbers, REGISTERS, TERMS, Terms, Tests};
use letters::limits::{MOST_LETTERS, UNIT_BYTES};
use letters::reasons::{Reason, Refused};
use letters::{Header, Letter, words};

// What is known of the letters so far, beside the computed terms.
#[derive(Drop)]
struct Progress {
    // The applications by signature.
    index: Index,
    // The term of each register.
    value: [u16; REGISTERS],
    // The unequal tests.
    tests: Tests,
}

// The class of the application that the index has, or of the new one.
fn name(representative: &Numbers, found: usize, count: usize) -> u16
    requires { (found ≤ count) × (count < most_terms) }
    ensures { result ≡ name_of representative.now found count }
{
    if found == count {
        count as u16
    } else {
        representative[found]
    }
}

// A new term, f of the terms a and b.
fn apply(terms: &mut Terms, index: &mut Index, f: u16, a: u16, b: u16)
    requires { AppliableTo terms.old index.old f a b }
    ensures applied { AppliedTo terms.old index.old f a b terms.new index.new }
    ensures registers { terms.new.registers ≡ terms.old.registers }
    ensures count { terms.new.count ≡ terms.old.count + 1 }
{
    let count = terms.count;
    let c = terms.signature(f, a, b);
    let found = index.enter(terms, count, c);
    let class = name(&terms.representative, found, count);
    terms.function[count] = f;
    terms.first[count] = a;
    terms.second[count] = b;
    terms.representative[count] = class;
    terms.count = count + 1;
}

impl Progress {
    // The fields of an application stay parameters: `step` takes the letter apart once.
    // target := f(a, b), with registers.
    fn compute(&mut self, terms: &mut Terms, target: u8, f: u8, a: u8, b: u8)
        requires { ComputableIn terms.old self.old target f a b }
        ensures computed { ComputingIn terms.old self.old target f a b terms.new self.new }
        ensures registers { terms.new.registers ≡ terms.old.registers }
        ensures tests { self.new.tests ≡ self.old.tests }
    {
        let new = terms.count as u16;
        let x = self.value[a as usize];
        let y = self.value[b as usize];
        apply(terms, &mut self.index, f as u16, x, y);
        self.value[target as usize] = new;
    }

    // The equal test of the registers a and b.
    fn equate(&mut self, terms: &mut Terms, a: u8, b: u8)
        requires { EquatableIn terms.old self.old a b }
        ensures equated { EquatedIn terms.old self.old a b terms.new.representative self.new }
        ensures terms { terms.new ≡ with_classes terms.old terms.new.representative }
        ensures rest { self.new ≡ with_parted (with_index self.old self.new.index) self.new.tests.parted }
    {
        let x = self.value[a as usize] as usize;
        let y = self.value[b as usize] as usize;
        if terms.representative[x] != terms.representative[y] {
            terms.merge(&mut self.index, x, y);
            self.tests.parted = 0;
        }
    }

    // A copy or an unequal test.
    fn note(&mut self, letter: Letter)
        requires { NotableIn letter self.old }
        ensures noted { NotedIn letter self.old self.new }
        ensures index { self.new.index ≡ self.old.index }
    {
        match letter {
            Letter::Copy { target, source } => {
                self.value[target as usize] = self.value[source as usize];
            }
            Letter::Unequal { first, second } => {
                let tests = self.tests.count;
                self.tests.left[tests] = self.value[first as usize];
                self.tests.right[tests] = self.value[second as usize];
                self.tests.count = tests + 1;
            }
            Letter::Apply { .. } => {}
            Letter::Equal { .. } => {}
        }
    }

    // One letter.
    fn step(&mut self, terms: &mut Terms, letter: Letter)
        requires { ReadyFor letter terms.old self.old }
        ensures performed { PerformedIn letter terms.old self.old terms.new self.new }
        ensures registers { terms.new.registers ≡ terms.old.registers }
    {
        match letter {
            Letter::Copy { .. } => self.note(letter),
            Letter::Unequal { .. } => self.note(letter),
            Letter::Apply {
                target,
                function,
                first,
                second,
            } => self.compute(terms, target, function, first, second),
            Letter::Equal { first, second } => self.equate(terms, first, second),
        }
    }

    // Runs over the letters from the state before them.
    fn perform(
        &mut self,
        terms: &mut Terms,
        header: Header,
        trace: &[u8],
        letters: usize,
    ) -> Result<Option<u64>, Refused>
        requires { Begun trace.now header letters × RunningIn trace.now header letters terms.old self.old 0 × (terms.old.registers ≡ header.registers) }
        ensures ran { RanTo trace.now header letters terms.new result }
        ensures registers { terms.new.registers ≡ header.registers }
    {
        for k in 0..letters {
            let Some(letter) = traces::letter_at(header, trace, k) else {
                return Err(Reason::LetterMalformed.at(k as u64 + 1));
            };
            self.step(terms, letter);
            if self.tests.clash(terms) {
                return Ok(Some(k as u64 + 1));
            }
            self.tests.parted = self.tests.count;
        }
        Ok(None)
    }
}

// Before any letter each register has its own constant, and each constant a class of its own.
fn begin(representative: &mut Numbers, value: &mut [u16; REGISTERS], registers: usize)
    requires { registers ≤ most_registers }
    ensures { Began representative.old value.old registers representative.new value.new }
{
    for i in 0..registers {
        representative[i] = i as u16;
        value[i] = i as u16;
    }
}

/// The number of the first letter after the first k that is not well formed, from 1; none if all are.
pub fn first_malformed(header: Header, trace: &[u8], letters: usize, k: usize) -> Option<u64>
    requires { Begun trace.now header letters }
    ensures { RestRead header (reading_from trace.now header letters k) result }
{
    for i in k..letters {
        let at = UNIT_BYTES * i + UNIT_BYTES;
        let decoded = words::decode_letter(header, words::word(trace[at], trace[at + 1]));
        let Some(letter) = decoded else {
            return Some(i as u64 + 1);
        };
    }
    None
}

/// Runs over the letters of a trace whose header was read. The answer is the number of the first infeasible letter, from 1, behind which none
/// was read, or none; or the refusal of the first letter that is not well formed. Where there is neither, `terms` has the computed terms and
/// their classes. Left free: what it has else, and the entries past the computed terms.
// It is not inlined, nor is the caller's writing of the model: so the two take the same place on the stack, one after the other.
#[inline(never)]
pub fn run(
    header: Header,
    trace: &[u8],
    letters: usize,
    terms: &mut Terms,
) -> Result<Option<u64>, Refused>
    requires { Begun trace.now header letters × BlankTerms terms.old }
    ensures ran { RanTo trace.now header letters terms.new result }
    ensures registers { terms.new.registers ≡ header.registers }
{
    let mut progress = Progress {
        index: Index {
            head: [0; CHAINS],
            link: [0; TERMS],
        },
        value: [0; REGISTERS],
        tests: Tests {
            count: 0,
            parted: 0,
            left: [0; MOST_LETTERS],
            right: [0; MOST_LETTERS],
        },
    };
    let registers = header.registers as usize;
    begin(&mut terms.representative, &mut progress.value, registers);
    terms.registers = registers;
    terms.count = registers;
    progress.perform(terms, header, trace, letters)
}
