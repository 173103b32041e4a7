// The points of a macro while its text is read.
ghost use Rattle.std.specs.Prelude.{◌≤◌, ◌+◌};
ghost use Rattle.grammar.specs.Limits.{most_points};
ghost use Rattle.blocks.specs.Followed.{FollowedBelow};

use super::{MOST_POINTS, POINT_SPACE, PointEntry, PointKind, UNKNOWN, begin, unused_point};
use letters::Letter;
use phrases::Condition;

// The count of points once there are more.
const TOO_MANY: u16 = MOST_POINTS + 1;

/// A table of points, and how many of them were read.
// An array with a count, since memory is fixed.
#[derive(Clone, Copy)]
pub struct Points {
    /// The points; behind them stands what stood there before.
    pub entries: [PointEntry; POINT_SPACE],
    /// How many were read; one more than `MOST_POINTS` for any more than these.
    pub count: u16,
    /// What follows the points below this number is known, so that no range is gone over from its beginning again.
    pub known: u16,
    pub ghost counted: { count ≤ most_points + 1 },
    pub ghost followed: { FollowedBelow known entries },
}

impl Points {
    ghost use Rattle.std.specs.Prelude.{◌≡◌, ◌+◌, ◌<◌, ◌≤◌, [], ◌∷◌, replicate};
    ghost use Rattle.base.specs.Each.{each};
    ghost use Rattle.grammar.specs.Limits.{most_points};
    ghost use Rattle.blocks.specs.Held.{point, unused_point, unknown, within};
    ghost use Rattle.blocks.specs.Outcome.{Adds, begins, changed_to, condition_points, forked};

    /// A table in which no point was read.
    pub fn none() -> Points
        ensures entries { result.entries ≡ replicate most_points unused_point }
        ensures count { result.count ≡ 0 }
    {
        Points {
            entries: [unused_point(); POINT_SPACE],
            count: 0,
            known: 0,
        }
    }

    // One point more, which `next` follows.
    pub(crate) fn push(&mut self, kind: PointKind, letter: Letter, next: u16)
        ensures { Adds self.old self.new (point kind letter next 0 ∷ []) }
    {
        let n = self.count;
        if n < MOST_POINTS {
            self.known = self.known.min(n);
            self.entries[n as usize] = PointEntry {
                kind,
                letter,
                first: next,
                second: 0,
            };
            self.count = n + 1;
        } else {
            self.count = TOO_MANY;
        }
    }

    // The points of a condition: of a named test first the one that applies it, and then that of the test.
    pub(crate) fn pose(&mut self, kind: PointKind, condition: Condition)
        ensures { Adds self.old self.new (condition_points kind condition self.old.count) }
    {
        if let Some(letter) = condition.application {
            let next = self.count + 1;
            self.push(PointKind::Step, letter, next);
        }
        self.push(kind, condition.test, UNKNOWN);
    }

    /// Puts f for what follows the points in a range.
    pub fn redirect(&mut self, from: u16, to: u16, f: u16)
        requires { to ≤ most_points }
        ensures entries { self.new.entries ≡ each (within from to f) self.old.entries }
        ensures count { self.new.count ≡ self.old.count }
    {
        // by index, since a range of the array would ask that `from` is at most `to`, which no caller was asked
        let start = from.max(self.known);
        for i in start as usize..to as usize {
            self.entries[i] = self.entries[i].redirected(f);
        }
        if from <= self.known && f != UNKNOWN {
            self.known = self.known.max(to);
        }
    }

    // After a statement whose points are numbered from `to` on: if it has one, it follows the points from `from` on.
    pub(crate) fn join(&mut self, from: u16, to: u16)
        ensures entries { self.new.entries
            ≡ changed_to self.old.count to (each (within from to to) self.old.entries) self.old.entries }
        ensures count { self.new.count ≡ self.old.count }
    {
        if to < self.count && self.count <= MOST_POINTS {
            self.redirect(from, to, to);
        }
    }

    // After the two blocks of an if, of which `test` is the number of the test's point: the second block's points are numbered from `mid` on.
    pub(crate) fn branch(&mut self, test: u16, mid: u16)
        ensures entries { self.new.entries
            ≡ changed_to self.old.count test
            (forked self.old.entries test (begins (test + 1) mid unknown) (begins mid self.old.count unknown)) self.old.entries }
        ensures count { self.new.count ≡ self.old.count }
    {
        if test < self.count && self.count <= MOST_POINTS {
            let holds = begin(test + 1, mid, UNKNOWN);
            let fails = begin(mid, self.count, UNKNOWN);
            self.fork(test, holds, fails);
        }
    }

    // After the block of a while: `test` is the number of the test's point, and `back`, the while's first point, follows the block.
    pub(crate) fn repeat_from(&mut self, test: u16, back: u16)
        ensures entries { self.new.entries
            ≡ changed_to self.old.count test
            (forked (each (within (test + 1) self.old.count back) self.old.entries) test (begins (test + 1) self.old.count back) unknown)
            self.old.entries }
        ensures count { self.new.count ≡ self.old.count }
    {
        let count = self.count;
        if test < count && count <= MOST_POINTS {
            self.redirect(test + 1, count, back);
            let body = begin(test + 1, count, back);
            self.fork(test, body, UNKNOWN);
        }
    }

    // Puts what follows one point.
    fn fork(&mut self, test: u16, first: u16, second: u16)
        requires { test < most_points }
        ensures entries { self.new.entries ≡ forked self.old.entries test first second }
        ensures count { self.new.count ≡ self.old.count }
    {
        let point = self.entries[test as usize];
        self.known = self.known.min(test);
        self.entries[test as usize] = PointEntry {
            first,
            second,
            ..point
        };
    }
}
