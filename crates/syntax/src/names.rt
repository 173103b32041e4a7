// What is declared, while it is read: names in the order of the text, and arities beside those of functions.
ghost use Rattle.letters.specs.Editions.{most_functions};
ghost use Rattle.syntax.specs.Lists.{NamesPadded};

use super::Functions;
use letters::limits::MOST_FUNCTIONS;

// At most N names, in lower case.
// An array with a count, since memory is fixed.
#[derive(Clone, Copy)]
pub(crate) struct Names<const N: usize> {
    // the names; 0 behind the last
    pub(crate) items: [u64; N],
    // how many there are
    pub(crate) count: usize,
    pub(crate) ghost padded: { NamesPadded N items count },
}

impl<const N: usize> Names<N> {
    ghost use Rattle.std.specs.Prelude.{◌≡◌, ◌+◌, ◌<◌, eqb, take, set, replicate};
    ghost use Rattle.grammar.specs.Reading.{is_declared};

    // No names.
    pub(crate) fn none() -> Names<N>
        ensures items { result.items ≡ replicate N 0 }
        ensures count { result.count ≡ 0 }
    {
        Names {
            items: [0; N],
            count: 0,
        }
    }

    // Whether there is no room for one more.
    pub(crate) fn is_full(&self) -> bool
        ensures { result ≡ eqb self.now.count N }
    {
        self.count == N
    }

    // Whether a name is among them.
    pub(crate) fn holds(&self, k: u64) -> bool
        ensures { result ≡ is_declared k (take self.now.count self.now.items) }
    {
        phrases::is_known(&self.items[..self.count], k)
    }

    // One name more.
    pub(crate) fn push(&mut self, k: u64)
        requires { self.old.count < N }
        ensures items { self.new.items ≡ set self.old.items self.old.count k }
        ensures count { self.new.count ≡ self.old.count + 1 }
    {
        self.items[self.count] = k;
        self.count += 1;
    }
}

// The entries of the lines of functions and tests: names, and how many arguments each takes.
#[derive(Clone, Copy)]
pub(crate) struct Entries {
    // the names
    pub(crate) names: Names<MOST_FUNCTIONS>,
    // their arities, 1 or 2; 0 behind the last
    pub(crate) arities: [u8; MOST_FUNCTIONS],
    pub(crate) ghost padded: { NamesPadded most_functions arities names.count },
}

impl Entries {
    ghost use Rattle.std.specs.Prelude.{◌≡◌, ◌+◌, ◌<◌, set};
    ghost use Rattle.syntax.specs.Top.{FunctionsPadded};

    // The entries that were read before.
    pub(crate) fn of(known: Functions) -> Entries
        requires { FunctionsPadded known }
        ensures items { result.names.items ≡ known.names }
        ensures arities { result.arities ≡ known.arities }
        ensures count { result.names.count ≡ known.count }
    {
        let items = known.names;
        let arities = known.arities;
        Entries {
            names: Names {
                items,
                count: known.count,
            },
            arities,
        }
    }

    // One entry more.
    pub(crate) fn push(&mut self, k: u64, arity: u8)
        requires { self.old.names.count < most_functions }
        ensures items { self.new.names.items ≡ set self.old.names.items self.old.names.count k }
        ensures arities { self.new.arities ≡ set self.old.arities self.old.names.count arity }
        ensures count { self.new.names.count ≡ self.old.names.count + 1 }
    {
        self.arities[self.names.count] = arity;
        self.names.push(k);
    }
}
