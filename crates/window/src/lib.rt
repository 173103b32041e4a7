// The window of a trace (SPEC 5): whether a letter is coherent, and the window after it.
#![tactic(auto)]

ghost use Rattle.std.specs.Prelude.{◌≡◌, List, ℕ, ◌+◌, ◌*◌, ◌/◌, ◌%◌, ◌^◌, ◌-◌, ◌<◌, ◌≤◌, Bool, true, cond, eqb, length};
ghost use Rattle.base.specs.Masks.{bit, has};
ghost use Rattle.base.specs.LeastAndSize.{least_in, size_of};
ghost use Rattle.window.specs.Bits.{nonempty, mask_moved};
ghost use Rattle.window.specs.Lines.{columns, rows, united, cleared};
ghost use Rattle.window.specs.Through.{bits_moved, masks_through, results_through};
ghost use Rattle.window.specs.Adding.{part_of, line_added, results_added, masks_forgotten, results_forgotten};
ghost use Rattle.window.specs.Layout.{registers, functions, register_pairs, results};
ghost use Rattle.window.specs.Table.{table};
ghost use Rattle.window.specs.Rows.{SmallRows, joined_rows, flag_row};
ghost use Rattle.window.specs.Naming.{naming_registers};
ghost use Rattle.window.specs.Performing.{both_classes, fallen_of, copied_of, merged_of, rest_of, find_of, closed_of, clash_of, settled_of, equal_of};
ghost use Rattle.window.specs.Performing.{parted_of, unequal_of, arguments_of, applied_of, own_of, memoizing_of, early_of, apply_of, apart_of};
ghost use Rattle.window.specs.Perform.{fresh_of, WithinPacking, judge_of, perform_of};
ghost use Rattle.window.specs.Counting.{one_more, count_left, count_made, count_at_start, counted_classes};
ghost use Rattle.window.specs.Classes.{ClassCount};
ghost use Rattle.window.specs.Step.{IsWindow};
ghost use Rattle.semantics.specs.Terms.{State};
ghost use Rattle.semantics.specs.Facts.{Valid};
ghost use Rattle.window.specs.Marks.{folded_of, union_of, above_of, flag_of, below_of, beside_of, raised_of, lost_of, marked_with};

use letters::Letter;
use letters::limits::{MOST_FUNCTIONS, MOST_REGISTERS};

// ---- the layout: what a window has entries for

/// A set of registers, a bit for each.
pub type Mask = u8;

/// How many registers there are at most.
pub const REGISTERS: usize = MOST_REGISTERS;

/// How many functions.
pub const FUNCTIONS: usize = MOST_FUNCTIONS;

/// How many pairs of registers.
pub const PAIRS: usize = REGISTERS * REGISTERS;

/// How many pairs of a function and a register.
pub const LINES: usize = FUNCTIONS * REGISTERS;

/// How many results: a function and a pair of registers each.
pub const RESULTS: usize = FUNCTIONS * PAIRS;

// ---- masks of registers

/// A class is named by its lowest register; the empty mask by their number.
pub fn name(mask: Mask) -> usize
    ensures { result ≡ least_in registers mask }
{
    mask.trailing_zeros() as usize
}

/// How many registers a class has.
pub fn size(mask: Mask) -> u32
    ensures { result ≡ size_of registers mask }
{
    mask.count_ones()
}

/// Whether the register is in the mask.
pub fn holds(mask: Mask, i: usize) -> bool
    requires { i < registers }
    ensures { result ≡ has mask i }
{
    (mask >> i) % 2 == 1
}

/// The mask of one register.
pub fn single(i: usize) -> Mask
    requires { i < registers }
    ensures { result ≡ 2 ^ i }
{
    1 << i
}

/// The mask of register i, if the test holds, else the empty one.
pub fn single_if(test: bool, i: usize) -> Mask
    requires { i < registers }
    ensures { result ≡ cond test (2 ^ i) 0 }
{
    if test { single(i) } else { 0 }
}

/// Whether a register is in the mask.
pub fn inhabited(mask: Mask) -> bool
    ensures { result ≡ nonempty registers mask }
{
    name(mask) < REGISTERS
}

// The mask, with the registers `to` in it exactly if one of `from` is.
fn moved(m: Mask, from: Mask, to: Mask) -> Mask
    ensures { result ≡ mask_moved m from to }
{
    if m & from == 0 { (m | to) ^ to } else { m | to }
}

/// The registers that name their class.
pub fn names(class: &[Mask; REGISTERS]) -> Mask
    ensures { result ≡ naming_registers registers class.now }
{
    let mut named: Mask = 0;
    for (r, mask) in class.iter().enumerate() {
        named |= single_if(name(*mask) == r, r);
    }
    named
}

// ---- rows of flags, a mask for each register, as one word

// Of each row the first flag; the flag of the row's own register; all flags but the last.
const FIRST_FLAGS: u64 = 0x0101010101010101;

const OWN_FLAGS: u64 = 0x8040201008040201;

const ALL_BUT_LAST_FLAGS: u64 = 0x7f7f7f7f7f7f7f7f;

// From the last flag of a row to its first.
const TO_FIRST_FLAG: usize = REGISTERS - 1;

/// The rows as one word: flag b of row a is its bit REGISTERS a + b. Of rows in memory that is one load. What the type says of them is promised too, for
/// a caller that lends them does not see it.
pub fn joined_rows(rows: &[Mask; REGISTERS]) -> u64
    ensures value { result ≡ joined_rows registers rows.now registers }
    ensures small { SmallRows registers rows.now registers }
{
    u64::from_le_bytes(*rows)
}

// The first flag of row a, if register a is in the mask. Each row gets the whole mask and keeps its own register's flag; the sum carries it to the row's
// last flag, and from there it goes to the first.
fn first_flags(mask: Mask) -> u64
    ensures { result ≡ joined_rows registers (table (bit mask) registers) registers }
{
    let own = (u64::from(mask) * FIRST_FLAGS) & OWN_FLAGS;
    ((own + ALL_BUT_LAST_FLAGS) >> TO_FIRST_FLAG) & FIRST_FLAGS
}

// Row a is `two` if register a is in `one`, else it is empty.
fn grid(one: Mask, two: Mask) -> u64
    ensures { result ≡ joined_rows registers (table (part_of one two) registers) registers }
{
    first_flags(one) * u64::from(two)
}

// ---- tables: lists of masks in lines, one entry for each register
//
// What goes along columns and what goes along rows differs in one expression, where line j has its entry. They stay two functions each: a trait of lines
// would take that expression out, with a definition, its laws and an impl for each, and be no plainer than bodies of one line; `slots` calls both.

/// In each mask, the registers `to` are in it exactly if one of `from` was.
pub fn move_bits(t: &mut [Mask], from: Mask, to: Mask)
    ensures { t.new ≡ bits_moved from to t.old }
{
    for mask in t.iter_mut() {
        *mask = moved(*mask, from, to);
    }
}

/// Along each line of consecutive entries, r gets the union of the entries of a and b.
pub fn unite_column(t: &mut [Mask], r: usize, a: usize, b: usize)
    requires { (r < registers) × (a < registers) × (b < registers) × (length t.old % registers ≡ 0) }
    ensures { t.new ≡ united (columns registers) (λ s. eqb s r) a b t.old }
{
    for j in 0..t.len() / REGISTERS {
        t[REGISTERS * j + r] = t[REGISTERS * j + a] | t[REGISTERS * j + b];
    }
}

/// The same along the lines by the first argument of a table of results.
pub fn unite_row(t: &mut [Mask], r: usize, a: usize, b: usize)
    requires { (r < registers) × (a < registers) × (b < registers) × (length t.old % register_pairs ≡ 0) }
    ensures { t.new ≡ united (rows registers) (λ s. eqb s r) a b t.old }
{
    for j in 0..t.len() / REGISTERS {
        let start = PAIRS * (j / REGISTERS);
        t[start + REGISTERS * r + j % REGISTERS] = t[start + REGISTERS * a + j % REGISTERS]
            | t[start + REGISTERS * b + j % REGISTERS];
    }
}

/// Along each line of consecutive entries, x gets the empty mask.
pub fn clear_column(t: &mut [Mask], x: usize)
    requires { (x < registers) × (length t.old % registers ≡ 0) }
    ensures { t.new ≡ cleared (columns registers) x t.old }
{
    for j in 0..t.len() / REGISTERS {
        t[REGISTERS * j + x] = 0;
    }
}

/// The same along the lines by the first argument of a table of results.
pub fn clear_row(t: &mut [Mask], x: usize)
    requires { (x < registers) × (length t.old % register_pairs ≡ 0) }
    ensures { t.new ≡ cleared (rows registers) x t.old }
{
    for j in 0..t.len() / REGISTERS {
        t[PAIRS * (j / REGISTERS) + REGISTERS * x + j % REGISTERS] = 0;
    }
}

// Along each line, each register of `to` gets the entry of a.
fn spread_column(t: &mut [Mask], to: Mask, a: usize)
    requires { (a < registers) × (length t.old % registers ≡ 0) }
    ensures { t.new ≡ united (columns registers) (has to) a a t.old }
{
    for r in 0..REGISTERS {
        if holds(to, r) {
            unite_column(t, r, a, a);
        }
    }
}

fn spread_row(t: &mut [Mask], to: Mask, a: usize)
    requires { (a < registers) × (length t.old ≡ results) }
    ensures { t.new ≡ united (rows registers) (has to) a a t.old }
{
    for r in 0..REGISTERS {
        if holds(to, r) {
            unite_row(t, r, a, a);
        }
    }
}

// Register x is read as y in a table of masks.
fn copy_masks(t: &mut [Mask], x: usize, y: usize)
    requires { (x < registers) × (y < registers) × (length t.old % registers ≡ 0) }
    ensures { t.new ≡ masks_through registers y y (2 ^ x) t.old }
{
    unite_column(t, x, y, y);
    move_bits(t, single(y), single(x));
}

// The same in the table of results.
fn copy_results(t: &mut [Mask], x: usize, y: usize)
    requires { (x < registers) × (y < registers) × (length t.old ≡ results) }
    ensures { t.new ≡ results_through registers y y (2 ^ x) t.old }
{
    unite_column(t, x, y, y);
    unite_row(t, x, y, y);
    move_bits(t, single(y), single(x));
}

// Each register of `to`, a among them, is read as a and as b in a table of masks.
fn merge_masks(t: &mut [Mask], a: usize, b: usize, to: Mask)
    requires { (a < registers) × (b < registers) × (has to a ≡ true) × (length t.old % registers ≡ 0) }
    ensures { t.new ≡ masks_through registers a b to t.old }
{
    unite_column(t, a, a, b);
    spread_column(t, to, a);
    move_bits(t, single(a) | single(b), to);
}

// The same in the table of results.
fn merge_results(t: &mut [Mask], a: usize, b: usize, to: Mask)
    requires { (a < registers) × (b < registers) × (has to a ≡ true) × (length t.old ≡ results) }
    ensures { t.new ≡ results_through registers a b to t.old }
{
    unite_column(t, a, a, b);
    spread_column(t, to, a);
    unite_row(t, a, a, b);
    spread_row(t, to, a);
    move_bits(t, single(a) | single(b), to);
}

/// `what` if the register is in the mask, else nothing.
pub fn part(mask: Mask, what: Mask, r: usize) -> Mask
    requires { r < registers }
    ensures { result ≡ part_of mask what r }
{
    if holds(mask, r) { what } else { 0 }
}

// On line j, adds `what` to the entry of each register of the mask.
fn add_line(t: &mut [Mask], j: usize, mask: Mask, what: Mask)
    requires { registers * j + registers ≤ length t.old }
    ensures { t.new ≡ line_added registers j mask what t.old }
{
    for r in 0..REGISTERS {
        t[REGISTERS * j + r] |= part(mask, what, r);
    }
}

// Adds `what` to the results of f at each register of the mask `first` and each of `second`.
fn add_results(t: &mut [Mask], f: usize, first: Mask, second: Mask, what: Mask)
    requires { (f < functions) × (length t.old ≡ results) }
    ensures { t.new ≡ results_added registers (has first) f second what t.old }
{
    for a in 0..REGISTERS {
        if holds(first, a) {
            add_line(t, REGISTERS * f + a, second, what);
        }
    }
}

/// Register x is in no mask and has the empty one, in a table of masks.
pub fn forget_masks(t: &mut [Mask], x: usize)
    requires { (x < registers) × (length t.old % registers ≡ 0) }
    ensures { t.new ≡ masks_forgotten registers x t.old }
{
    move_bits(t, 0, single(x));
    clear_column(t, x);
}

// Register x is no argument of a result, and holds only that of f at `first` and `second`.
fn renew_results(t: &mut [Mask], x: usize, f: usize, first: Mask, second: Mask)
    requires { (x < registers) × (f < functions) × (length t.old ≡ results) }
    ensures { t.new ≡ results_forgotten registers x f first second t.old }
{
    let own = single(x);
    move_bits(t, 0, own);
    add_results(t, f, first, second, own);
    clear_column(t, x);
    clear_row(t, x);
}

// ---- marks: what lies above a register by held results

// This and `union` stay apart: they go over tables of different lengths, of which each caller has one.
/// The classes that hold a result of any function at the i-th pair of registers.
pub fn results_at(res: &[Mask; RESULTS], i: usize) -> Mask
    requires { i < register_pairs }
    ensures { result ≡ union_of res.now i register_pairs functions }
{
    let mut m: Mask = 0;
    for f in 0..FUNCTIONS {
        m |= res[i + f * PAIRS];
    }
    m
}

// For each pair of registers, the classes that hold a result of any function at the two.
fn folded(res: &[Mask; RESULTS]) -> [Mask; PAIRS]
    ensures { result ≡ folded_of registers functions res.now }
{
    let mut next: [Mask; PAIRS] = [0; PAIRS];
    for (i, classes) in next.iter_mut().enumerate() {
        *classes = results_at(res, i);
    }
    next
}

/// The union of an entry for each register, `step` apart.
pub fn union(t: &[Mask; PAIRS], start: usize, step: usize) -> Mask
    requires { (step ≤ registers) × (start + (registers - 1) * step < register_pairs) }
    ensures { result ≡ union_of t.now start step registers }
{
    let mut m: Mask = 0;
    for j in 0..REGISTERS {
        m |= t[start + j * step];
    }
    m
}

// For each register, the registers that hold a result with it as an argument.
fn above(t: &[Mask; PAIRS]) -> [Mask; REGISTERS]
    ensures { result ≡ above_of registers t.now }
{
    let mut next: [Mask; REGISTERS] = [0; REGISTERS];
    for (h, holders) in next.iter_mut().enumerate() {
        *holders = union(t, REGISTERS * h, 1) | union(t, h, REGISTERS);
    }
    next
}

/// The registers that have one of s directly above them.
pub fn below(up: &[Mask; REGISTERS], s: Mask) -> Mask
    ensures { result ≡ below_of registers up.now s registers }
{
    let mut m: Mask = 0;
    for (h, holders) in up.iter().enumerate() {
        m |= flag(*holders & s, h);
    }
    m
}

/// The mask of register h, empty if `hits` is.
pub fn flag(hits: Mask, h: usize) -> Mask
    requires { h < registers }
    ensures { result ≡ flag_of registers hits h }
{
    if inhabited(hits) { single(h) } else { 0 }
}

// The registers with which x is an argument of a held result.
fn beside(t: &[Mask; PAIRS], x: usize) -> Mask
    requires { x < registers }
    ensures { result ≡ beside_of registers t.now x registers }
{
    let mut m: Mask = 0;
    for h in 0..REGISTERS {
        m |= flag(t[REGISTERS * x + h] | t[REGISTERS * h + x], h);
    }
    m
}

// The loop stays a `while`: it goes on until nothing changes, and counts no index.
/// The registers of the seed and those that have one of them above.
#[inline]
pub fn raised(up: &[Mask; REGISTERS], seed: Mask) -> Mask
    ensures { result ≡ raised_of registers up.now seed }
{
    let mut s = seed;
    let mut t = s | below(up, s);
    while t != s {
        s = t;
        t = s | below(up, s);
    }
    s
}

// The registers that get a mark as x, the last of its class, loses its value: those below a result that has x as an argument or holds it,
// and `more` and those below it.
fn lost(res: &[Mask; RESULTS], x: usize, more: Mask) -> Mask
    requires { x < registers }
    ensures { result ≡ lost_of registers functions res.now x more }
{
    let t = folded(res);
    let up = above(&t);
    let seed = (below(&up, single(x)) | beside(&t, x)) | flag(up[x], x);
    raised(&up, seed | more)
}

// ---- the window

/// What the next letter needs of a trace. A register from the header's count on is in no mask and has no mark.
#[derive(Clone, Copy)]
pub struct Window {
    /// At r, the class of register r: the mask of the registers with an equal value.
    pub class: [Mask; REGISTERS],
    /// At r, the registers whose class is known to be unequal to the class of r.
    pub unequal: [Mask; REGISTERS],
    /// At PAIRS f + REGISTERS a + b, the class that holds the result of f at a and b; empty where no register holds it.
    pub result: [Mask; RESULTS],
    /// At REGISTERS f + a, the registers b for which f was ever computed at a and b.
    pub ever: [Mask; LINES],
    /// At r, whether above r there is a computed application with an argument or the result in no register.
    pub mark: [bool; REGISTERS],
    /// Whether no data model satisfies all tests.
    pub infeasible: bool,
    /// How many classes there are, kept by each letter: from a fresh window on it is the number of the classes above.
    pub classes: u8,
}

// There is a class more. It is raised only below the number of registers, so that no sum is too large whatever was stored.
fn one_more(count: u8) -> u8
    ensures { result ≡ one_more registers count }
{
    if usize::from(count) < REGISTERS {
        return count + 1;
    }
    count
}

// The number of classes after a register has left this class, its own, for another one.
fn count_left(class: Mask, count: u8) -> u8
    ensures { result ≡ count_left registers class count }
{
    if size(class) == 1 {
        return count.saturating_sub(1);
    }
    count
}

// The same after it has become a class of its own.
fn count_made(class: Mask, count: u8) -> u8
    ensures { result ≡ count_made registers class count }
{
    if size(class) == 1 {
        return count;
    }
    one_more(count)
}

// The number of classes at the start: each register is one.
fn count_at_start(declared: u8) -> u8
    ensures { result ≡ count_at_start registers declared }
{
    declared.min(REGISTERS as u8)
}

/// The number of classes of a table, counted anew: for a window that is made from something else than a letter.
pub fn counted_classes(class: &[Mask; REGISTERS]) -> u8
    ensures { result ≡ counted_classes registers class.now }
{
    size(names(class)) as u8
}

// The registers that get a mark as x, of the given class, loses its value: none if another register holds it too.
fn fallen(class: Mask, res: &[Mask; RESULTS], x: usize, more: Mask) -> Mask
    requires { x < registers }
    ensures { result ≡ fallen_of registers functions class res.now x more }
{
    if size(class) == 1 {
        return lost(res, x, more);
    }
    0
}

// Adds marks.
fn add_marks(mark: &mut [bool; REGISTERS], s: Mask)
    ensures { mark.new ≡ marked_with registers mark.old s }
{
    for (r, marked) in mark.iter_mut().enumerate() {
        *marked |= holds(s, r);
    }
}

// The registers of the entry that are not in the class of its lowest register.
fn rest(class: &[Mask; REGISTERS], entry: Mask) -> Mask
    ensures { result ≡ rest_of registers functions class.now entry }
{
    let one = name(entry);
    if one < REGISTERS {
        return (entry | class[one]) ^ class[one];
    }
    0
}

// The empty mask stands for none: the definition `find_of`, by which `closed_of` goes on, says so.
// The first result that is in two classes, or the empty mask.
fn find(class: &[Mask; REGISTERS], res: &[Mask; RESULTS]) -> Mask
    ensures { result ≡ find_of registers functions class.now res.now 0 results }
{
    for entry in res {
        if inhabited(rest(class, *entry)) {
            return *entry;
        }
    }
    0
}

/// Whether register a is known unequal to one of the others: the one place where what a letter does depends on unequal pairs. All are read as one word.
pub fn apart(unequal: &[Mask; REGISTERS], a: usize, others: Mask) -> bool
    requires { a < registers }
    ensures { result ≡ apart_of registers functions unequal.now a others }
{
    joined_rows(unequal) & (u64::from(others) << (REGISTERS * a)) != 0
}

// Whether two registers of one class are known unequal.
fn clash(class: &[Mask; REGISTERS], unequal: &[Mask; REGISTERS]) -> bool
    ensures { result ≡ clash_of registers functions class.now unequal.now registers }
{
    let mut bad = false;
    for (r, equals) in class.iter().enumerate() {
        bad |= apart(unequal, r, *equals);
    }
    bad
}

// The unequal pairs with the classes one and two put apart.
fn parted(unequal: &[Mask; REGISTERS], one: Mask, two: Mask) -> [Mask; REGISTERS]
    ensures { result ≡ parted_of registers functions unequal.now one two }
{
    let flags = (joined_rows(unequal) | grid(one, two)) | grid(two, one);
    flags.to_le_bytes()
}

// The argument classes, where one of the arguments is x.
fn arguments(x: usize, y: usize, z: usize, one: Mask, two: Mask) -> Mask
    ensures { result ≡ arguments_of x y z one two }
{
    if (y == x) | (z == x) {
        return one | two;
    }
    0
}

// The class of register i at the start.
fn own(i: usize, count: usize) -> Mask
    requires { i < registers }
    ensures { result ≡ own_of count i }
{
    if i < count { single(i) } else { 0 }
}

// A fill like that of `folded`: what fills an entry differs, and a closure for it is no plainer.
// Each register below the count in a class of its own.
fn own_classes(count: usize) -> [Mask; REGISTERS]
    ensures { result ≡ (fresh_of count).class }
{
    let mut next: [Mask; REGISTERS] = [0; REGISTERS];
    for (r, class) in next.iter_mut().enumerate() {
        *class = own(r, count);
    }
    next
}

impl Window {
    /// The window of a header alone, with that count of registers.
    pub fn fresh(registers: u8) -> Window
        ensures { result ≡ fresh_of registers }
    {
        Window {
            class: own_classes(usize::from(registers)),
            unequal: [0; REGISTERS],
            result: [0; RESULTS],
            ever: [0; LINES],
            mark: [false; REGISTERS],
            infeasible: false,
            classes: count_at_start(registers),
        }
    }

    /// How many classes there are: the number that is stored, whatever window it is. From a fresh window on it is the count of the trace's classes.
    pub fn class_count(&self) -> u8
        ensures value { result ≡ self.now.classes }
        ensures means { (σ : State) → Valid σ → IsWindow σ self.now → ClassCount σ result }
    {
        self.classes
    }

    // x has come to hold what y holds.
    fn copy(&mut self, x: usize, y: usize)
        requires { (x < registers) × (y < registers) }
        ensures { self.new ≡ copied_of registers functions self.old x y }
    {
        let left = self.class[x];
        if holds(left, y) {
            return;
        }
        self.classes = count_left(left, self.classes);
        add_marks(&mut self.mark, fallen(left, &self.result, x, 0));
        self.mark[x] = self.mark[y];
        copy_masks(&mut self.class, x, y);
        copy_masks(&mut self.unequal, x, y);
        copy_results(&mut self.result, x, y);
        copy_masks(&mut self.ever, x, y);
    }

    // The registers of the classes of a and b, with a among them.
    fn both(&self, a: usize, b: usize) -> Mask
        requires { (a < registers) × (b < registers) }
        ensures value { result ≡ both_classes self.now a b }
        ensures first { has result a ≡ true }
    {
        self.class[a] | self.class[b] | single(a)
    }

    // The classes of a and b made one.
    fn merge(&mut self, a: usize, b: usize)
        requires { (a < registers) × (b < registers) }
        ensures { self.new ≡ merged_of registers functions self.old a b }
    {
        self.classes = self.classes.saturating_sub(1);
        let to = self.both(a, b);
        merge_masks(&mut self.class, a, b, to);
        merge_masks(&mut self.unequal, a, b, to);
        merge_results(&mut self.result, a, b, to);
        merge_masks(&mut self.ever, a, b, to);
    }

    // Classes made one until no result is in two classes. Each turn adds a pair of registers to those that are in one class.
    fn close(&mut self)
        ensures { self.new ≡ closed_of registers functions (register_pairs + 1) self.old }
    {
        for _turn in 0..PAIRS + 1 {
            let entry = find(&self.class, &self.result);
            let one = name(entry);
            let two = name(rest(&self.class, entry));
            if one >= REGISTERS {
                return;
            }
            if two >= REGISTERS {
                return;
            }
            self.merge(one, two);
        }
    }

    // `slots` has its own, of another type: a trait for three lines is no plainer.
    // Makes the window infeasible where it is `bad`. An infeasible window has no unequal pairs.
    fn settle(&mut self, bad: bool)
        ensures { self.new ≡ settled_of registers functions self.old bad }
    {
        if self.infeasible | bad {
            self.unequal = [0; REGISTERS];
            self.infeasible = true;
        }
    }

    // The test x = y.
    fn test_equal(&mut self, x: usize, y: usize)
        requires { (x < registers) × (y < registers) }
        ensures { self.new ≡ equal_of registers functions self.old x y }
    {
        if holds(self.class[x], y) {
            return;
        }
        self.merge(x, y);
        self.close();
        let bad = clash(&self.class, &self.unequal);
        self.settle(bad);
    }

    // The test x != y.
    fn test_unequal(&mut self, x: usize, y: usize)
        requires { (x < registers) × (y < registers) }
        ensures { self.new ≡ unequal_of registers functions self.old x y }
    {
        let one = self.class[x];
        let two = self.class[y];
        self.unequal = parted(&self.unequal, one, two);
        self.settle(holds(one, y));
    }

    // x := f(y, z), a value that was never computed.
    fn compute(&mut self, x: usize, f: usize, y: usize, z: usize)
        requires { (x < registers) × (f < functions) × (y < registers) × (z < registers) }
        ensures { self.new ≡ applied_of registers functions self.old x f y z }
    {
        let one = self.class[y];
        let two = self.class[z];
        let left = self.class[x];
        self.classes = count_made(left, self.classes);
        add_marks(
            &mut self.mark,
            fallen(left, &self.result, x, arguments(x, y, z, one, two)),
        );
        self.mark[x] = false;
        forget_masks(&mut self.class, x);
        self.class[x] = single(x);
        forget_masks(&mut self.unequal, x);
        renew_results(&mut self.result, x, f, one, two);
        add_line(&mut self.ever, f, one, two);
        forget_masks(&mut self.ever, x);
    }

    // x := f(y, z).
    fn apply(&mut self, x: usize, f: usize, y: usize, z: usize)
        requires { (x < registers) × (f < functions) × (y < registers) × (z < registers) }
        ensures { self.new ≡ apply_of registers functions self.old x f y z }
    {
        let held = name(self.result[REGISTERS * (REGISTERS * f + y) + z]);
        if held < REGISTERS {
            self.copy(x, held);
        } else {
            self.compute(x, f, y, z);
        }
    }

    // Whether x := f(y, z) is coherent: a register holds its value, or it was never computed ("memoizing").
    fn is_memoizing(&self, f: usize, y: usize, z: usize) -> bool
        requires { (f < functions) × (y < registers) × (z < registers) }
        ensures { result ≡ memoizing_of registers functions self.now f y z }
    {
        let line = REGISTERS * f + y;
        if holds(self.ever[line], z) {
            return inhabited(self.result[REGISTERS * line + z]);
        }
        true
    }

    // Whether the test x = y is coherent: nothing above either side is lost ("early"), or the sides are equal already.
    fn is_early(&self, x: usize, y: usize) -> bool
        requires { (x < registers) × (y < registers) }
        ensures { result ≡ early_of self.now x y }
    {
        if self.mark[x] | self.mark[y] {
            return holds(self.class[x], y);
        }
        true
    }

    /// Whether the letter is coherent after a trace with this window. Its registers lie below REGISTERS and its function below FUNCTIONS, as packed ones do.
    pub fn judge(&self, letter: Letter) -> bool
        requires { WithinPacking letter }
        ensures { result ≡ judge_of self.now letter }
    {
        match letter {
            Letter::Copy { .. } | Letter::Unequal { .. } => true,
            Letter::Apply {
                function,
                first,
                second,
                ..
            } => self.is_memoizing(
                usize::from(function),
                usize::from(first),
                usize::from(second),
            ),
            Letter::Equal { first, second } => self.is_early(
                usize::from(first),
                usize::from(second),
            ),
        }
    }

    /// Performs a letter that is coherent. Its registers lie below REGISTERS and its function below FUNCTIONS.
    pub fn perform(&mut self, letter: Letter)
        requires { WithinPacking letter }
        ensures { self.new ≡ perform_of self.old letter }
    {
        match letter {
            Letter::Copy { target, source } => self.copy(usize::from(target), usize::from(source)),
            Letter::Apply {
                target,
                function,
                first,
                second,
            } => self.apply(
                usize::from(target),
                usize::from(function),
                usize::from(first),
                usize::from(second),
            ),
            Letter::Equal { first, second } => self.test_equal(
                usize::from(first),
                usize::from(second),
            ),
            Letter::Unequal { first, second } => self.test_unequal(
                usize::from(first),
                usize::from(second),
            ),
        }
    }
}
