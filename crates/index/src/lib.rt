// An index of the pairs in the search's table: a chain of records for each remainder of fingerprints by the count of chains.
#![tactic(auto)]

ghost use Rattle.std.specs.Prelude.{◌≡◌, ◌*◌, ◌≤◌, ◌<◌, ℕ, List, length, get_or, set};
ghost use Rattle.letters.specs.Capacity.{most_pairs};
ghost use Rattle.records.specs.Records.{record_bytes};
ghost use Rattle.table.specs.Table.{is_listed};
ghost use Rattle.index.specs.Index.{pair_chains, chain_of, IndexedPairs};

use records::ENCODED_BYTES;
use table::MOST_PAIRS;

/// How many chains there are.
pub const CHAINS: usize = 1024;

// Arrays of numbers, since memory is fixed.
/// The chains of the records in a table. Record 0 ends every chain and needs no entry.
#[derive(Clone, Copy)]
pub struct Index {
    /// In each chain the record that was last entered.
    pub head: [u16; CHAINS],
    /// From each record the one that was entered before it.
    pub link: [u16; MOST_PAIRS],
}

// The chain of a pair, by its fingerprint.
fn chain_of(pair: &[u8; ENCODED_BYTES]) -> usize
    ensures value { result ≡ chain_of pair.now }
    ensures small { result < pair_chains }
{
    usize::from(u16::from_be_bytes([pair[0], pair[1]])) % CHAINS
}

impl Index {
    /// The index of a table in which record 0 alone is a pair.
    pub fn of_one() -> Index
        ensures { (t : List ℕ) → IndexedPairs t result.head result.link 1 }
    {
        Index {
            head: [0; CHAINS],
            link: [0; MOST_PAIRS],
        }
    }

    /// Whether the pair is one of the first `count`: those on its chain are compared, and record 0.
    pub fn is_listed(&self, table: &[u8], count: usize, pair: &[u8; ENCODED_BYTES]) -> bool
        requires indexed { IndexedPairs table.now self.now.head self.now.link count }
        requires most { count ≤ most_pairs }
        requires fits { record_bytes * count ≤ length table.now }
        ensures { result ≡ is_listed table.now count pair.now }
    {
        let mut k = usize::from(self.head[chain_of(pair)]);
        // No iterator of the library walks a chain of numbers.
        while k != 0 {
            if table::is_at(table, k, pair) {
                return true;
            }
            k = usize::from(self.link[k]);
        }
        table::is_at(table, 0, pair)
    }

    /// Enters record k at the front of the chain of its pair.
    pub fn enter(&mut self, k: usize, pair: &[u8; ENCODED_BYTES])
        requires { k < most_pairs }
        ensures head { self.new.head ≡ set self.old.head (chain_of pair.now) k }
        ensures link { self.new.link ≡ set self.old.link k (get_or self.old.head (chain_of pair.now) 0) }
    {
        let chain = chain_of(pair);
        self.link[k] = self.head[chain];
        self.head[chain] = k as u16;
    }
}
