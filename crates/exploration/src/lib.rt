// The exploration of the pairs of a macro, breadth first from pair to pair (SPEC 10).
#![tactic(auto)]

ghost use Rattle.std.specs.Prelude.{◌≡◌, ◌+◌, ◌*◌, ◌/◌, ◌%◌, ◌≤◌, ◌<◌, length};
ghost use Rattle.letters.specs.Capacity.{most_pairs};
ghost use Rattle.exploration.specs.Moves.{opposite_of, move_of, letter_of};
ghost use Rattle.exploration.specs.LetterBounds.{AllWithin};
ghost use Rattle.window.specs.Perform.{WithinPacking};
ghost use Rattle.exploration.specs.Turns.{reach_turn, reach_table, fail_turn, turn_of, table_of};
ghost use Rattle.exploration.specs.Exploring.{explore_of, search_of};
ghost use Rattle.exploration.specs.Keeping.{Keeps, Carried};
ghost use Rattle.records.specs.Records.{record_bytes};
ghost use Rattle.table.specs.Table.{window_at};
ghost use Rattle.index.specs.Index.{IndexedPairs};

use blocks::{MOST_POINTS, PointEntry, PointKind};
use index::Index;
use letters::{Header, Letter};
use window::Window;

/// How many points a macro has at most.
pub const POINTS: usize = MOST_POINTS as usize;

// An enum and no Option: a branch goes on, fails or is none, and `move_of` (specs/Moves.antt) is by these three.
/// What a branch of a point performs.
#[derive(Clone, Copy)]
pub enum PointMove {
    /// No letter: the point has no such branch.
    Nothing,
    /// A letter, and then the point of this number is due.
    Goes(Letter, usize),
    /// A letter that fails an assertion.
    Fails(Letter),
}

/// Why a search stops before all moves are performed.
#[derive(Clone, Copy)]
pub enum Stop {
    /// The pairs pass the table.
    Full,
    /// With so many pairs listed, the move of this number is incoherent.
    Breaking(usize, usize),
    /// With so many pairs listed, the move of this number fails an assertion, in some data model.
    Failing(usize, usize),
}

// The letter that tests the opposite.
fn opposite(letter: Letter) -> Letter
    ensures { result ≡ opposite_of letter }
{
    match letter {
        Letter::Equal { first, second } => Letter::Unequal { first, second },
        Letter::Unequal { first, second } => Letter::Equal { first, second },
        Letter::Copy { .. } | Letter::Apply { .. } => letter,
    }
}

// What branch b of a point performs, 0 the first. At an assert the failing letter comes first.
fn choose(point: PointEntry, b: usize) -> PointMove
    ensures { result ≡ move_of point b }
{
    let letter = point.letter;
    let first = PointMove::Goes(letter, point.first as usize);
    match point.kind {
        PointKind::Step => { if b == 0 { first } else { PointMove::Nothing } }
        PointKind::Check => {
            if b == 0 {
                PointMove::Fails(opposite(letter))
            } else {
                first
            }
        }
        PointKind::Fork => {
            if b == 0 {
                first
            } else {
                PointMove::Goes(opposite(letter), point.second as usize)
            }
        }
    }
}

/// The letter that branch b of a point performs; where it performs none, the copy of register 0 to itself.
pub fn letter_of(point: PointEntry, b: usize) -> Letter
    ensures { result ≡ letter_of (move_of point b) }
{
    match choose(point, b) {
        PointMove::Nothing => Letter::Copy {
            target: 0,
            source: 0,
        },
        PointMove::Goes(letter, _) => letter,
        PointMove::Fails(letter) => letter,
    }
}

// A turn of the search: how many points there are and for how many pairs there is room, how many pairs are listed, and the number of the move:
// branch `number` % 2 of pair `number` / 2.
#[derive(Clone, Copy)]
struct Turn {
    end: usize,
    room: usize,
    count: usize,
    number: usize,
    ghost most: { room ≤ most_pairs },
    ghost listed: { count ≤ room },
    ghost due: { number < 2 * count },
}

impl Turn {
    // The window w is left at point k: a pair, unless k is the end. It is listed if it is new and there is room.
    fn reach(self, k: usize, w: Window, table: &mut [u8], index: &mut Index) -> Result<usize, Stop>
        requires fits { record_bytes * self.room ≤ length table.old }
        requires indexed { IndexedPairs table.old index.old.head index.old.link self.count }
        ensures value { result ≡ reach_turn k w self.end self.room self.count table.old }
        ensures table { table.new ≡ reach_table k w self.end self.room self.count self.number table.old }
        ensures keeps { Keeps self.count table.old result table.new index.new.head index.new.link }
    {
        if self.end <= k {
            return Ok(self.count);
        }
        let pair = records::encode(k, w);
        if index.is_listed(table, self.count, &pair) {
            return Ok(self.count);
        }
        if self.count == self.room {
            return Err(Stop::Full);
        }
        table::put(table, self.count, pair, self.number / 2, self.number % 2);
        index.enter(self.count, &pair);
        Ok(self.count + 1)
    }

    // The letter is incoherent.
    fn breaks(self) -> Result<usize, Stop>
        ensures { result ≡ Err (Stop.Breaking self.count self.number) }
    {
        Err(Stop::Breaking(self.count, self.number))
    }

    // An assertion has failed with the window w: an event, unless the execution is infeasible.
    fn fail(self, w: Window) -> Result<usize, Stop>
        ensures { result ≡ fail_turn w self.count self.number }
    {
        if w.infeasible {
            return Ok(self.count);
        }
        Err(Stop::Failing(self.count, self.number))
    }

    // Performs the move, on the pair's point and window.
    fn perform(
        self,
        point: PointEntry,
        mut w: Window,
        table: &mut [u8],
        index: &mut Index,
    ) -> Result<usize, Stop>
        requires within { WithinPacking (letter_of (move_of point (self.number % 2))) }
        requires window { w ≡ window_at table.old (self.number / 2) }
        requires fits { record_bytes * self.room ≤ length table.old }
        requires indexed { IndexedPairs table.old index.old.head index.old.link self.count }
        ensures value { result ≡ turn_of point self.end self.room self.count self.number table.old }
        ensures table { table.new ≡ table_of point self.end self.room self.count self.number table.old }
        ensures keeps { Keeps self.count table.old result table.new index.new.head index.new.link }
    {
        match choose(point, self.number % 2) {
            PointMove::Nothing => Ok(self.count),
            PointMove::Goes(letter, k) => {
                if !w.judge(letter) {
                    return self.breaks();
                }
                w.perform(letter);
                self.reach(k, w, table, index)
            }
            PointMove::Fails(letter) => {
                if !w.judge(letter) {
                    return self.breaks();
                }
                w.perform(letter);
                self.fail(w)
            }
        }
    }
}

// The window of the pair of move number d: read before the pair's first move, and kept for its second.
fn current(table: &[u8], w: Window, d: usize) -> Window
    requires fits { record_bytes * (d / 2) + record_bytes ≤ length table.now }
    requires carried { Carried w d table.now }
    ensures { result ≡ window_at table.now (d / 2) }
{
    if d % 2 == 0 {
        table::window_at(table, d / 2)
    } else {
        w
    }
}

// Performs the moves in order, from the pair in the table's first record on.
fn explore(
    points: [PointEntry; POINTS],
    end: usize,
    table: &mut [u8],
    room: usize,
) -> Result<usize, Stop>
    requires most { room ≤ most_pairs }
    requires some { 1 ≤ room }
    requires fits { record_bytes * room ≤ length table.old }
    requires within { AllWithin points }
    ensures value { result ≡ (explore_of points end room table.old).0 }
    ensures table { table.new ≡ (explore_of points end room table.old).1 }
{
    let mut index = Index::of_one();
    let mut w = Window::fresh(1);
    let mut count: usize = 1;
    let mut number: usize = 0;
    // a `while`, since the bound grows as pairs are listed
    while number < 2 * count {
        w = current(table, w, number);
        let point = points[table::point_at(table, number / 2) % POINTS];
        let turn = Turn {
            end,
            room,
            count,
            number,
        };
        count = turn.perform(point, w, table, &mut index)?;
        number += 1;
    }
    Ok(count)
}

/// The whole search in a table that holds n pairs: from the pair of the first point and the fresh window on. `end` is the number of points.
/// The count of the pairs, or why it stops. For a caller that has counted the table's room, and whose points were read.
// It is not inlined: so the search takes the place on the stack that reading the text had, and that the model gets.
#[inline(never)]
pub fn search_pairs(
    header: Header,
    points: [PointEntry; POINTS],
    end: usize,
    table: &mut [u8],
    n: usize,
) -> Result<usize, Stop>
    requires most { n ≤ most_pairs }
    requires fits { record_bytes * n ≤ length table.old }
    requires within { AllWithin points }
    ensures value { result ≡ (search_of header points end n table.old).0 }
    ensures table { table.new ≡ (search_of header points end n table.old).1 }
{
    if end == 0 {
        return Ok(0);
    }
    if n == 0 {
        return Err(Stop::Full);
    }
    let pair = records::encode(0, Window::fresh(header.registers));
    table::put(table, 0, pair, 0, 0);
    explore(points, end, table, n)
}
