// The table of pairs in a lent slice (SPEC 10.6): pair number k lies in bytes 192 times k onward, k from 0.
// The lent slice is the table, and these are functions of it: a struct that held it would say no more.
#![tactic(auto)]

ghost use Rattle.std.specs.Prelude.{◌≡◌, ◌+◌, ◌*◌, ◌≤◌, ◌<◌, length, replicate};
ghost use Rattle.letters.specs.Editions.{first_edition};
ghost use Rattle.letters.specs.Capacity.{capacity_of};
ghost use Rattle.records.specs.Records.{record_bytes, record_of};
ghost use Rattle.table.specs.Table.{put_at, point_at, parent_at, branch_at, window_at, is_at};

use records::{ENCODED_BYTES, RECORD_BYTES, same_pair};
use window::Window;

/// How many pairs a table holds at most.
pub const MOST_PAIRS: usize = 1024;

/// How many pairs a table of so many bytes holds.
pub fn capacity(length: usize) -> usize
    ensures { result ≡ capacity_of first_edition length }
{
    (length / RECORD_BYTES).min(MOST_PAIRS)
}

/// Writes record k, and changes no other byte.
pub fn put(table: &mut [u8], k: usize, pair: [u8; ENCODED_BYTES], parent: usize, branch: usize)
    requires { record_bytes * k + record_bytes ≤ length table.old }
    ensures { table.new ≡ put_at table.old k (record_of pair parent branch) }
{
    records::write(&mut table[RECORD_BYTES * k..], &pair, parent, branch);
}

/// The point of pair k.
pub fn point_at(table: &[u8], k: usize) -> usize
    requires { record_bytes * k + record_bytes ≤ length table.now }
    ensures { result ≡ point_at table.now k }
{
    records::point_in(&table[RECORD_BYTES * k..])
}

/// The number of the pair from which pair k was reached.
pub fn parent_at(table: &[u8], k: usize) -> usize
    requires { record_bytes * k + record_bytes ≤ length table.now }
    ensures { result ≡ parent_at table.now k }
{
    records::parent_in(&table[RECORD_BYTES * k..])
}

/// The branch that was taken from there to pair k.
pub fn branch_at(table: &[u8], k: usize) -> usize
    requires { record_bytes * k + record_bytes ≤ length table.now }
    ensures { result ≡ branch_at table.now k }
{
    records::branch_in(&table[RECORD_BYTES * k..])
}

/// The window of pair k.
pub fn window_at(table: &[u8], k: usize) -> Window
    requires { record_bytes * k + record_bytes ≤ length table.now }
    ensures { result ≡ window_at table.now k }
{
    records::window_in(&table[RECORD_BYTES * k..])
}

/// Whether pair k is this one.
pub fn is_at(table: &[u8], k: usize, pair: &[u8; ENCODED_BYTES]) -> bool
    requires { record_bytes * k + record_bytes ≤ length table.now }
    ensures { result ≡ is_at table.now k pair.now }
{
    same_pair(&table[RECORD_BYTES * k..], pair)
}

/// Sets every byte of the table to zero.
pub fn clear(table: &mut [u8])
    ensures { table.new ≡ replicate (length table.old) 0 }
{
    table.fill(0);
}
