// Congruence closure over the computed terms of a trace, on arrays.
//
// Terms are numbered as they are computed. Those below `registers` are the registers' initial constants; each other is an
// application, with its function in `function` and its arguments, terms before it, in `first` and `second` (the same one
// twice for one argument). There are `count` terms. `representative` names the class of each by the lowest term in it.
//
// Applications are found by signature: function and classes of the arguments as one number. The index has a chain of
// applications for each remainder of signatures by their count: `head` has the last that was entered, `link` leads from each to
// the one entered before it. A number below `registers` ends a chain.
#![tactic(auto)]

ghost use Rattle.std.specs.Prelude.{◌≡◌, ◌<◌, ◌≤◌, get_or};
ghost use Rattle.letters.specs.Editions.{most_functions};
ghost use Rattle.closure.specs.Limits.{most_terms};
ghost use Rattle.closure.specs.Index.{signature_of, Down, Cut, CutTo, Entered, Found, without_last};
ghost use Rattle.closure.specs.Arrays.{Argument, Named, UsedAsArgument, Parts, Clashes, fall_of, relabelled, classes_united};
ghost use Rattle.closure.specs.Structs.{Application, ReadableTerms, LowestTerms, FormedTerms, ClosedTerms, IndexedBy, ChainsOf, CompleteFor, signatures};
ghost use Rattle.closure.specs.Structs.{ResumedIndex, UnderwayIn, PropagatedTerms, MergedTerms, TestsIn, with_classes};

use letters::limits::{MOST_FUNCTIONS, MOST_LETTERS, MOST_REGISTERS};

/// How many registers there are at most, each with an initial constant.
pub const REGISTERS: usize = MOST_REGISTERS;

/// How many functions.
pub const FUNCTIONS: usize = MOST_FUNCTIONS;

/// How many computed terms: one for each letter at most, and the registers' constants.
pub const TERMS: usize = MOST_LETTERS + REGISTERS;

/// How many chains an index has.
pub const CHAINS: usize = 1021;

// What the classes of the arguments count in a signature, whose function counts 1: specs/Limits.antt.
const SECOND_FACTOR: usize = FUNCTIONS;

const FIRST_FACTOR: usize = 1056 * SECOND_FACTOR;

/// A number for each computed term.
pub type Numbers = [u16; TERMS];

/// A term for each unequal test, of which there is one for each letter at most.
pub type Sides = [u16; MOST_LETTERS];

// So many applications, or more, are taken out of the index by a pass over all chains.
const MANY: usize = 256;

// Numbers side by side and not one array of structs: the relations of specs/Arrays.antt, which docs/ name, speak of lists of numbers, and uniting classes
// goes over `representative` alone.
/// The computed terms of a trace and their classes.
#[derive(Drop)]
pub struct Terms {
    /// How many registers there are. Their initial constants are the first terms.
    pub registers: usize,
    /// How many terms there are.
    pub count: usize,
    /// The function of each application.
    pub function: Numbers,
    /// Its first argument.
    pub first: Numbers,
    /// Its second argument; the first again, where the function takes one.
    pub second: Numbers,
    /// The class of each term: the lowest term in it.
    pub representative: Numbers,
}

// Arrays of numbers, since memory is fixed.
/// An index of applications by signature.
#[derive(Drop)]
pub struct Index {
    /// The last application that was entered in each chain.
    pub head: [u16; CHAINS],
    /// The application that was entered before each in its chain.
    pub link: Numbers,
}

// Numbers side by side as in `Terms`: `Parts` and `Clashes`, which docs/ name, speak of lists.
/// The unequal tests.
#[derive(Drop)]
pub struct Tests {
    /// How many there are.
    pub count: usize,
    /// The first so many are known to have their sides in different classes.
    pub parted: usize,
    /// The term of each first side.
    pub left: Sides,
    /// The term of each second side.
    pub right: Sides,
}

// How much is taken off a name, where the name `from` falls by so much.
fn fall(name: u16, from: u16, by: u16) -> u16
    ensures { result ≡ fall_of name from by }
{
    if name == from { by } else { 0 }
}

// The representative `to` in place of `from`. A class has its lowest term as its name, so the terms before `from` have another.
// Each entry is stored, changed or not: a loop without a branch takes eight entries at a time, and its last turns guess nothing.
fn relabel(representative: &mut Numbers, count: usize, from: u16, to: u16)
    requires { (count ≤ most_terms) × (from ≤ count) × (to ≤ from) × Named representative.old count }
    ensures { representative.new ≡ relabelled from to count representative.old }
{
    let by = from - to;
    for i in from as usize..count {
        let name = representative[i];
        representative[i] = name - fall(name, from, by);
    }
}

// The union of the classes of i and j.
fn unite(representative: &mut Numbers, count: usize, i: usize, j: usize)
    requires { (count ≤ most_terms) × (i < count) × (j < count) × Named representative.old count }
    ensures { representative.new ≡ classes_united count i j representative.old }
{
    let low = representative[i].min(representative[j]);
    let high = representative[i].max(representative[j]);
    relabel(representative, count, high, low);
}

impl Terms {
    /// The signature of f of the terms a and b.
    pub fn signature(&self, f: u16, a: u16, b: u16) -> usize
        requires { (f < most_functions) × Argument self.now.representative a × Argument self.now.representative b }
        ensures { result ≡ signature_of f (get_or self.now.representative a 0) (get_or self.now.representative b 0) }
    {
        let p = self.representative[a as usize] as usize;
        let q = self.representative[b as usize] as usize;
        p * FIRST_FACTOR + q * SECOND_FACTOR + f as usize
    }

    /// The signature of application i.
    pub fn signature_at(&self, i: usize) -> usize
        requires { Application self.now i }
        ensures { result ≡ signatures self.now i }
    {
        self.signature(self.function[i], self.first[i], self.second[i])
    }

    // Whether a term has an argument of the class d. Arguments come before their terms, and a class has its lowest term as its
    // name, so the terms before d have none.
    fn uses(&self, d: u16) -> bool
        requires { LowestTerms self.now }
        ensures { UsedAsArgument self.now.representative self.now.first self.now.second self.now.count d result }
    {
        for i in d as usize..self.count {
            let a = self.first[i] as usize;
            let b = self.second[i] as usize;
            if self.representative[a] == d || self.representative[b] == d {
                return true;
            }
        }
        false
    }
}

// The first number below the bound in the chain from `start` on.
fn below(link: &Numbers, start: usize, bound: usize) -> usize
    requires { Down link.now × (start < most_terms) × (1 ≤ bound) }
    ensures { Cut link.now start bound result }
{
    let mut i = start;
    // Links are followed: these numbers are no range.
    while bound <= i {
        i = link[i] as usize;
    }
    i
}

// The head of a chain without application k: the one entered before it where k is the head.
fn without_last(last: u16, before: u16, k: usize) -> u16
    ensures { result ≡ without_last last before k }
{
    if last as usize == k { before } else { last }
}

impl Index {
    // Here and in `enter` a number stands for none: the relations `Found` and `Entered` say which.
    // An application with the signature c in the chain from `start` on, or a number below `registers` where there is none.
    fn find(&self, terms: &Terms, n: usize, start: usize, c: usize) -> usize
        requires { ReadableTerms terms.now n × (start < n) × Down self.now.link }
        ensures { Found (signatures terms.now) terms.now.registers n self.now.link start c result }
    {
        let mut i = start;
        // Links are followed: these numbers are no range.
        while terms.registers <= i {
            if terms.signature_at(i) == c {
                return i;
            }
            i = self.link[i] as usize;
        }
        i
    }

    /// An application before n that the index has for the signature c; where it has none, n, which is then entered. Which of several
    /// applications with the signature it is does not matter, because closed classes have them all in one.
    pub fn enter(&mut self, terms: &Terms, n: usize, c: usize) -> usize
        requires { ReadableTerms terms.now n × (n < most_terms) × ChainsOf n self.old }
        ensures { Entered (signatures terms.now) terms.now.registers n c self.old.head self.old.link result self.new.head self.new.link }
    {
        let chain = c % CHAINS;
        let found = self.find(terms, n, self.head[chain] as usize, c);
        if terms.registers <= found {
            return found;
        }
        self.link[n] = self.head[chain];
        self.head[chain] = n as u16;
        n
    }

    // Takes the applications from the bound on out of the index.
    fn cut(&mut self, bound: usize)
        requires { ChainsOf most_terms self.old × (1 ≤ bound) × (bound ≤ most_terms) }
        ensures chains { CutTo self.old.head self.old.link bound self.new.head }
        ensures links { self.new.link ≡ self.old.link }
    {
        for last in &mut self.head {
            *last = below(&self.link, *last as usize, bound) as u16;
        }
    }

    // Takes the applications from the bound on, which are below i, out of the index, the last first: each is the head of the chain
    // that its signature leads to, or in no chain.
    fn undo(&mut self, terms: &Terms, i: usize, bound: usize)
        requires { ReadableTerms terms.now i × ChainsOf i self.old × CompleteFor terms.now i self.old × (terms.now.registers ≤ bound) × (bound ≤ i) }
        ensures chains { CutTo self.old.head self.old.link bound self.new.head }
        ensures links { self.new.link ≡ self.old.link }
    {
        for k in (bound..i).rev() {
            let chain = terms.signature_at(k) % CHAINS;
            self.head[chain] = without_last(self.head[chain], self.link[k], k);
        }
    }

    // The application to go on with when the applications below i were looked at and then the name d goes: arguments come before
    // their terms, and no class is named by a later term, so the signatures of the terms before d stay as they are.
    fn resume(&mut self, terms: &Terms, i: usize, d: u16) -> usize
        requires { ReadableTerms terms.now i × ChainsOf i self.old × CompleteFor terms.now i self.old × (d ≤ i) }
        ensures { ResumedIndex terms.now.registers i d self.old result self.new }
    {
        let next = (d as usize).max(terms.registers);
        if next == i {
            return next;
        }
        if i - next < MANY {
            self.undo(terms, i, next);
        } else {
            self.cut(next);
        }
        next
    }
}

impl Terms {
    // Unites what is congruent, from the application `start` on, and leaves an index of all applications.
    fn propagate(&mut self, index: &mut Index, start: usize)
        requires { UnderwayIn self.old.representative self.old index.old start }
        ensures classes { PropagatedTerms self.old self.new.representative index.new }
        ensures same { self.new ≡ with_classes self.old self.new.representative }
    {
        let mut i = start;
        // A union leads back to an earlier application: these numbers are no range.
        while i < self.count {
            let c = self.signature_at(i);
            let o = index.enter(self, i, c);
            let a = self.representative[o];
            let b = self.representative[i];
            if a == b {
                i += 1;
            } else {
                let next = index.resume(self, i, a.max(b));
                unite(&mut self.representative, self.count, o, i);
                i = next;
            }
        }
    }

    /// Merges the classes of the terms x and y, with all that follows by congruence: nothing, where the class whose name goes is no argument.
    pub fn merge(&mut self, index: &mut Index, x: usize, y: usize)
        requires { FormedTerms self.old × (x < self.old.count) × (y < self.old.count) × ClosedTerms self.old × IndexedBy self.old self.old.count index.old }
        ensures classes { MergedTerms self.old x y self.new.representative index.new }
        ensures same { self.new ≡ with_classes self.old self.new.representative }
    {
        let d = self.representative[x].max(self.representative[y]);
        if !self.uses(d) {
            unite(&mut self.representative, self.count, x, y);
            return;
        }
        let start = index.resume(self, self.count, d);
        unite(&mut self.representative, self.count, x, y);
        self.propagate(index, start);
    }
}

impl Tests {
    /// Whether the two sides of one of the tests are in one class. Those that are `parted` need not be looked at.
    pub fn clash(&self, terms: &Terms) -> bool
        requires { TestsIn self.now × Parts terms.now.representative self.now.left self.now.right self.now.parted }
        ensures { Clashes terms.now.representative self.now.left self.now.right self.now.count result }
    {
        for i in self.parted..self.count {
            let a = terms.representative[self.left[i] as usize];
            let b = terms.representative[self.right[i] as usize];
            if a == b {
                return true;
            }
        }
        false
    }
}
