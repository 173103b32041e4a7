// A window in slots (SPEC 5): each class lies in one slot, and the tables are of slots. A register that comes to
// hold what another holds goes to the other's slot, and no table moves: for runs over many letters.
#![tactic(auto)]

ghost use Rattle.std.specs.Prelude.{◌≡◌, Bool, true, cond, List, ℕ, ◌+◌, ◌*◌, ◌/◌, ◌%◌, ◌^◌, ◌<◌, eqb, length, get_or, set};
ghost use Rattle.window.specs.Layout.{registers, functions, register_pairs, lines, results};
ghost use Rattle.window.specs.Bits.{minus};
ghost use Rattle.window.specs.Performing.{arguments_of};
ghost use Rattle.window.specs.Perform.{WithinPacking};
ghost use Rattle.slots.specs.Slots.{slot_of, slots_of, Low, Laid};
ghost use Rattle.slots.specs.Performing.{has_slot, placed, free_from, pulled_of, many_of, doubled_of, clash_slots, apart_slots, early_slots};
ghost use Rattle.slots.specs.Performing.{results_dropped, masks_renamed, results_renamed, slot_renamed, marks_in, register_in};
ghost use Rattle.slots.specs.Performing.{above_slots, beside_slots, lost_slots, recorded_slots, slots_with_unequal};
ghost use Rattle.slots.specs.Around.{Around, around_of};
ghost use Rattle.slots.specs.Represents.{RepresentsWindow};
ghost use Rattle.slots.specs.Performing.{entry_of, find_slots, memoizing_slots};
ghost use Rattle.slots.specs.Performing.{dropped_slots, left_slots, copied_slots, renewed_slots, freshened_slots, new_slots, apply_slots};
ghost use Rattle.slots.specs.Performing.{merged_slots, closed_slots};
ghost use Rattle.slots.specs.Performing.{settled_slots, equal_slots, unequal_slots, judge_slots, perform_slots};
ghost use Rattle.slots.specs.Performing.{pulled_at, pulled_masks, pulled_results, pulled_classes, pulled_marks, window_of};
ghost use Rattle.slots.specs.Performing.{members_of, grouped_of, used_of, kept_at, clean_of, same_masks, alike_of, same_marks, regular_of};
ghost use Rattle.slots.specs.Performing.{same_window, represents_of};

use letters::Letter;
use std::marker::Model;
use window::{
    LINES, Mask, PAIRS, REGISTERS, RESULTS, Window, apart, clear_column, clear_row,
    counted_classes, flag, forget_masks, holds, inhabited, move_bits, name, names, part, raised,
    results_at, single, single_if, size, union, unite_column, unite_row,
};

/// A window in slots. A contract sees the `Slots` of slots/specs/Slots.antt; `around` is what makes the marks quick to find.
#[derive(Drop)]
pub struct SlotWindow {
    // At r, the slot of register r's class.
    slot: [u8; REGISTERS],
    // At s, the registers of slot s: none if it is free.
    regs: [Mask; REGISTERS],
    // The unequal pairs, the results and the computed applications: tables as a window's, of slots and not of registers.
    unequal: [Mask; REGISTERS],
    result: [Mask; RESULTS],
    ever: [Mask; LINES],
    // For each pair of slots, the slots that hold a result of some function at the two, in either order.
    around: [Mask; PAIRS],
    // At r, whether register r has a mark.
    mark: [bool; REGISTERS],
    infeasible: bool,
}

impl Model for SlotWindow {
    ghost use Rattle.window.specs.Layout.{registers, functions};
    ghost use Rattle.slots.specs.Slots.{Slots, slots_of};
    ghost use Rattle.slots.specs.Around.{WellKept};

    ghost Value = { Slots };

    ghost view = { λ a. slots_of a.slot a.regs a.unequal a.result a.ever a.mark a.infeasible };

    ghost invariant = { λ a. WellKept registers functions (slots_of a.slot a.regs a.unequal a.result a.ever a.mark a.infeasible) a.around };
}

// ---- registers and slots

impl SlotWindow {
    // The slot of a register.
    fn slot_of(&self, r: usize) -> usize
        requires { r < registers }
        ensures value { result ≡ slot_of self.now.slot r }
        ensures low { result < registers }
    {
        self.slot[r] as usize
    }

    // Whether the register has a slot.
    #[tactic(auto, unfolding(crate::specs::Performing::has_slot))]
    fn held(&self, r: usize) -> bool
        requires { r < registers }
        ensures { result ≡ has_slot self.now.slot self.now.regs r }
    {
        holds(self.regs[self.slot_of(r)], r)
    }

    // Register x goes to slot t.
    #[tactic(auto, unfolding(crate::specs::Performing::regs_moved, window::specs::Bits::minus))]
    fn move_register(&mut self, x: usize, t: usize)
        requires x_is_register { x < registers }
        requires t_is_slot { t < registers }
        ensures { self.new ≡ placed self.old x t }
    {
        let s = self.slot_of(x);
        let own = single(x);
        self.regs[s] = (self.regs[s] | own) ^ own;
        self.regs[t] |= own;
        self.slot[x] = t as u8;
    }

    // The first free slot; their number if none is: the definition `free_from` says none by that number (no plainer with an Option turned back into it).
    fn free_slot(&self) -> usize
        ensures { result ≡ free_from self.now.regs 0 registers }
    {
        for s in 0..REGISTERS {
            if self.regs[s] == 0 {
                return s;
            }
        }
        REGISTERS
    }

    // The lowest register of the lowest slot of a mask; their number if the mask is empty, as `name` and the definition `register_in` say none.
    #[tactic(auto, using(base::proofs::Theory::Choice::decide), unfolding(crate::specs::Performing::register_in))]
    fn register_in(&self, slots: Mask) -> usize
        ensures { result ≡ register_in registers self.now.regs slots }
    {
        let s = name(slots);
        if s < REGISTERS {
            return name(self.regs[s]);
        }
        REGISTERS
    }
}

// ---- a slot without registers

// What works on one table of a window in slots is a function on that table: `drop_slot` and `merge` lend it several, and on the way what the type
// promises of the tables together does not hold.

// In a table of results, slot s is no argument and holds none.
#[tactic(auto, unfolding(crate::specs::Performing::results_dropped))]
fn drop_results(t: &mut [Mask], s: usize)
    requires s_is_slot { s < registers }
    requires t_in_squares { length t.old % register_pairs ≡ 0 }
    ensures { t.new ≡ results_dropped registers s t.old }
{
    move_bits(t, 0, single(s));
    clear_column(t, s);
    clear_row(t, s);
}

// For each slot, the slots that hold a result with it as an argument.
#[tactic(auto, using(crate::proofs::Theory::Loops::written))]
fn above(around: &[Mask; PAIRS]) -> [Mask; REGISTERS]
    ensures { result ≡ above_slots registers around.now }
{
    let mut next = [0; REGISTERS];
    for (h, m) in next.iter_mut().enumerate() {
        *m = union(around, h, REGISTERS);
    }
    next
}

// The slots with which s is an argument of a held result.
#[tactic(auto, unfolding(crate::specs::Performing::beside_slots))]
fn beside(around: &[Mask; PAIRS], s: usize) -> Mask
    requires { s < registers }
    ensures { result ≡ beside_slots registers around.now s registers }
{
    let mut m = 0;
    for h in 0..REGISTERS {
        m |= flag(around[REGISTERS * s + h], h);
    }
    m
}

// The slots whose registers get a mark as slot s loses its value: those below a result that has s as an argument or that s holds, and `more` and
// those below it; s itself too, which has no register then, or one whose mark is cleared next.
#[tactic(auto, unfolding(crate::specs::Performing::lost_slots))]
fn lost_slots(around: &[Mask; PAIRS], s: usize, more: Mask) -> Mask
    requires { s < registers }
    ensures { result ≡ lost_slots registers around.now s more }
{
    let up = above(around);
    let seed = (single(s) | beside(around, s)) | more;
    raised(&up, seed)
}

// Gives a mark to the registers whose slot is in the mask.
#[tactic(auto, using(window::proofs::Theory::Table::swept_none), unfolding(crate::specs::Performing::marks_in))]
fn mark_slots(slot: &[u8; REGISTERS], mark: &mut [bool; REGISTERS], slots: Mask)
    requires { Low registers slot.now }
    ensures { mark.new ≡ marks_in registers slot.now mark.old slots }
{
    for r in 0..REGISTERS {
        mark[r] |= holds(slots, slot[r] as usize);
    }
}

impl SlotWindow {
    // Slot s has no register any more, or one that gets a new value: it and what is below it, and `more` and what is below that, get a mark, and
    // the tables forget it.
    #[tactic(auto, using(crate::proofs::Theory::Around::lost_around), unfolding(crate::specs::Performing::dropped_slots))]
    fn drop_slot(&mut self, s: usize, more: Mask)
        requires { s < registers }
        ensures { self.new ≡ dropped_slots registers functions self.old s more }
    {
        mark_slots(
            &self.slot,
            &mut self.mark,
            lost_slots(&self.around, s, more),
        );
        forget_masks(&mut self.unequal, s);
        drop_results(&mut self.result, s);
        forget_masks(&mut self.ever, s);
        drop_results(&mut self.around, s);
    }

    // The same, if the slot is empty.
    #[tactic(auto, using(base::proofs::Theory::Choice::decide), unfolding(crate::specs::Performing::left_slots))]
    fn leave_slot(&mut self, s: usize, empty: bool)
        requires { s < registers }
        ensures { self.new ≡ left_slots registers functions self.old s empty }
    {
        if empty {
            self.drop_slot(s, 0);
        }
    }

    // ---- a copy

    // Register x comes to hold what y holds.
    #[tactic(auto, using(base::proofs::Theory::Choice::decide), unfolding(crate::specs::Performing::copied_slots))]
    fn copy(&mut self, x: usize, y: usize)
        requires x_is_register { x < registers }
        requires y_is_register { y < registers }
        ensures { self.new ≡ copied_slots registers functions self.old x y }
    {
        let s = self.slot_of(x);
        let t = self.slot_of(y);
        if s == t {
            return;
        }
        let empty = self.regs[s] == single(x);
        self.move_register(x, t);
        self.leave_slot(s, empty);
        self.mark[x] = self.mark[y];
    }
}

// ---- an application

// The argument slots, where one of them is s.
#[tactic(auto, unfolding(window::specs::Performing::arguments_of))]
fn arguments(s: usize, a: usize, b: usize) -> Mask
    requires a_is_slot { a < registers }
    requires b_is_slot { b < registers }
    ensures { result ≡ arguments_of s a b (2 ^ a) (2 ^ b) }
{
    if (a == s) | (b == s) {
        return single(a) | single(b);
    }
    0
}

impl SlotWindow {
    // Slot n holds the result of f at slots a and b, unless it took the place of one of them, and register x has no mark.
    // Parameters of their own: `renew` and `freshen` give other slots n, and a struct of the five would be read nowhere else.
    fn record(&mut self, x: usize, f: usize, a: usize, b: usize, n: usize)
        requires x_is_register { x < registers }
        requires f_is_function { f < functions }
        requires a_is_slot { a < registers }
        requires b_is_slot { b < registers }
        requires n_is_slot { n < registers }
        ensures { self.new ≡ recorded_slots registers functions self.old x f a b n }
    {
        self.mark[x] = false;
        if (a == n) | (b == n) {
            return;
        }
        let line = REGISTERS * f + a;
        let place = REGISTERS * line + b;
        let pair = REGISTERS * a + b;
        let turned = REGISTERS * b + a;
        self.result[place] |= single(n);
        self.ever[line] |= single(b);
        self.around[pair] |= single(n);
        self.around[turned] |= single(n);
    }

    // Register x, alone in its slot, gets the value of f at slots a and b.
    #[tactic(auto, unfolding(crate::specs::Performing::renewed_slots))]
    fn renew(&mut self, x: usize, f: usize, a: usize, b: usize)
        requires x_is_register { x < registers }
        requires f_is_function { f < functions }
        requires a_is_slot { a < registers }
        requires b_is_slot { b < registers }
        ensures { self.new ≡ renewed_slots registers functions self.old x f a b }
    {
        let s = self.slot_of(x);
        let more = arguments(s, a, b);
        self.drop_slot(s, more);
        self.record(x, f, a, b, s);
    }

    // Register x leaves its slot to others, and gets the value of f at slots a and b in a free one.
    #[tactic(auto, using(base::proofs::Theory::Choice::decide), unfolding(crate::specs::Performing::freshened_slots))]
    fn freshen(&mut self, x: usize, f: usize, a: usize, b: usize)
        requires x_is_register { x < registers }
        requires f_is_function { f < functions }
        requires a_is_slot { a < registers }
        requires b_is_slot { b < registers }
        ensures { self.new ≡ freshened_slots registers functions self.old x f a b }
    {
        let n = self.free_slot();
        if n < REGISTERS {
            self.move_register(x, n);
            self.record(x, f, a, b, n);
        }
    }

    // Register x gets the value of f at slots a and b, which was never computed.
    #[tactic(auto, using(base::proofs::Theory::Choice::decide), unfolding(crate::specs::Performing::new_slots))]
    fn new_value(&mut self, x: usize, f: usize, a: usize, b: usize)
        requires x_is_register { x < registers }
        requires f_is_function { f < functions }
        requires a_is_slot { a < registers }
        requires b_is_slot { b < registers }
        ensures { self.new ≡ new_slots registers functions self.old x f a b }
    {
        let s = self.slot_of(x);
        if self.regs[s] == single(x) {
            self.renew(x, f, a, b);
        } else {
            self.freshen(x, f, a, b);
        }
    }

    // The slots after x := f(y, z).
    #[tactic(auto, using(base::proofs::Theory::Choice::decide), unfolding(crate::specs::Performing::apply_slots))]
    fn apply(&mut self, x: usize, f: usize, y: usize, z: usize)
        requires x_is_register { x < registers }
        requires f_is_function { f < functions }
        requires y_is_register { y < registers }
        requires z_is_register { z < registers }
        ensures { self.new ≡ apply_slots registers functions self.old x f y z }
    {
        let a = self.slot_of(y);
        let b = self.slot_of(z);
        let r = self.register_in(self.result[REGISTERS * (REGISTERS * f + a) + b]);
        if r < REGISTERS {
            self.copy(x, r);
        } else {
            self.new_value(x, f, a, b);
        }
    }
}

// ---- an equal test

// Slot b is called a: in the slots of the registers, in a table of masks, and in a table of results.
#[tactic(auto, using(window::proofs::Theory::Table::swept_none), unfolding(crate::specs::Performing::slot_renamed))]
fn rename_slot(slot: &mut [u8; REGISTERS], a: usize, b: usize)
    requires a_is_slot { a < registers }
    requires b_is_slot { b < registers }
    ensures { slot.new ≡ slot_renamed registers a b slot.old }
{
    let to = a as u8;
    let from = b as u8;
    for s in slot.iter_mut() {
        *s = if *s == from { to } else { *s };
    }
}

fn rename_masks(t: &mut [Mask], a: usize, b: usize)
    requires a_is_slot { a < registers }
    requires b_is_slot { b < registers }
    requires t_in_lines { length t.old % registers ≡ 0 }
    ensures { t.new ≡ masks_renamed registers a b t.old }
{
    unite_column(t, a, a, b);
    move_bits(t, single(a) | single(b), single(a));
    forget_masks(t, b);
}

// Generic in the length, so that the compiler lays it out for each of the two tables.
fn rename_results<const N: usize>(t: &mut [Mask; N], a: usize, b: usize)
    requires a_is_slot { a < registers }
    requires b_is_slot { b < registers }
    requires t_in_squares { N % register_pairs ≡ 0 }
    ensures { t.new ≡ results_renamed registers a b t.old }
{
    unite_column(t, a, a, b);
    unite_row(t, a, a, b);
    move_bits(t, single(a) | single(b), single(a));
    drop_results(t, b);
}

// Whether the mask has two slots or more. A function, for its contract is the definition `many_of`, which `doubled` and `find` share.
#[tactic(auto, unfolding(crate::specs::Performing::many_of))]
fn many(m: Mask) -> bool
    ensures { result ≡ many_of registers m }
{
    size(m) > 1
}

// Whether one of the results is in two slots.
#[tactic(auto, unfolding(crate::specs::Performing::doubled_of))]
fn doubled(res: &[Mask; RESULTS]) -> bool
    ensures { result ≡ doubled_of registers res.now results }
{
    let mut found = false;
    for m in res {
        found |= many(*m);
    }
    found
}

// The registers of the slots in a mask.
#[tactic(auto, unfolding(crate::specs::Performing::pulled_of))]
fn pulled(regs: &[Mask; REGISTERS], slots: Mask) -> Mask
    ensures { result ≡ pulled_of regs.now slots registers }
{
    let mut m = 0;
    for (s, own) in regs.iter().enumerate() {
        m |= part(slots, *own, s);
    }
    m
}

impl SlotWindow {
    // The registers of slot b go to slot a.
    #[tactic(auto, unfolding(crate::specs::Performing::merged_slots))]
    fn merge(&mut self, a: usize, b: usize)
        requires a_is_slot { a < registers }
        requires b_is_slot { b < registers }
        ensures { self.new ≡ merged_slots registers functions self.old a b }
    {
        self.regs[a] |= self.regs[b];
        self.regs[b] = 0;
        rename_slot(&mut self.slot, a, b);
        rename_masks(&mut self.unequal, a, b);
        rename_results(&mut self.result, a, b);
        rename_masks(&mut self.ever, a, b);
        rename_results(&mut self.around, a, b);
    }

    // The slots that hold the result at place k of a window.
    #[tactic(auto, using(base::proofs::Theory::Choice::decide), unfolding(crate::specs::Performing::entry_of))]
    fn entry(&self, k: usize) -> Mask
        requires { k < results }
        ensures { result ≡ entry_of registers self.now.slot self.now.regs self.now.result k }
    {
        let a = k / REGISTERS % REGISTERS;
        let b = k % REGISTERS;
        if self.held(a) & self.held(b) {
            let line = REGISTERS * (k / PAIRS) + self.slot_of(a);
            return self.result[REGISTERS * line + self.slot_of(b)];
        }
        0
    }

    // The registers of the first result of a window that is in two slots, or the empty mask, as the definition `find_slots` says none.
    fn find(&self) -> Mask
        ensures { result ≡ find_slots registers self.now.slot self.now.regs self.now.result 0 results }
    {
        for k in 0..RESULTS {
            let slots = self.entry(k);
            if many(slots) {
                return pulled(&self.regs, slots);
            }
        }
        0
    }

    // The registers of the mask that are not in the slot of the given one.
    #[tactic(auto, unfolding(window::specs::Bits::minus))]
    fn rest(&self, m: Mask, one: usize) -> Mask
        requires { one < registers }
        ensures { result ≡ minus m (get_or self.now.regs (slot_of self.now.slot one) 0) }
    {
        let own = self.regs[self.slot_of(one)];
        (m | own) ^ own
    }

    // Makes slots one until no result is in two of them: in the order of a window's closing.
    fn close(&mut self)
        ensures { self.new ≡ closed_slots registers functions (register_pairs + 1) self.old }
    {
        for _turn in 0..PAIRS + 1 {
            if !doubled(&self.result) {
                return;
            }
            let m = self.find();
            let one = name(m);
            if one >= REGISTERS {
                return;
            }
            let two = name(self.rest(m, one));
            if two >= REGISTERS {
                return;
            }
            let a = self.slot_of(one);
            let b = self.slot_of(two);
            self.merge(a, b);
        }
    }
}

// Whether a slot is known unequal to itself.
#[tactic(auto, using(crate::proofs::Theory::Loops::apart_itself), unfolding(crate::specs::Performing::clash_slots))]
fn clash(unequal: &[Mask; REGISTERS]) -> bool
    ensures { result ≡ clash_slots unequal.now registers }
{
    let mut bad = false;
    for s in 0..REGISTERS {
        bad |= apart(unequal, s, single(s));
    }
    bad
}

impl SlotWindow {
    // The slots are infeasible, if they were or something is bad. Infeasible ones have no unequal pairs.
    // Window has its own, of another type: no plainer with a trait for three lines.
    #[tactic(auto, using(base::proofs::Theory::Choice::decide), unfolding(crate::specs::Performing::settled_slots))]
    fn settle(&mut self, bad: bool)
        ensures { self.new ≡ settled_slots registers functions self.old bad }
    {
        if self.infeasible | bad {
            self.unequal = [0; REGISTERS];
            self.infeasible = true;
        }
    }

    // The slots after the test x = y.
    #[tactic(auto, using(base::proofs::Theory::Choice::decide), unfolding(crate::specs::Performing::equal_slots))]
    fn equal(&mut self, x: usize, y: usize)
        requires x_is_register { x < registers }
        requires y_is_register { y < registers }
        ensures { self.new ≡ equal_slots registers functions self.old x y }
    {
        let a = self.slot_of(x);
        let b = self.slot_of(y);
        if a == b {
            return;
        }
        self.merge(a, b);
        self.close();
        let bad = clash(&self.unequal);
        self.settle(bad);
    }

    // ---- an unequal test

    // Slots a and b are put apart.
    #[tactic(auto, unfolding(crate::specs::Performing::apart_slots))]
    fn part(&mut self, a: usize, b: usize)
        requires a_is_slot { a < registers }
        requires b_is_slot { b < registers }
        ensures { self.new ≡ slots_with_unequal self.old (apart_slots self.old.unequal a b) self.old.infeasible }
    {
        self.unequal[a] |= single(b);
        self.unequal[b] |= single(a);
    }

    // The slots after the test x != y.
    #[tactic(auto, unfolding(crate::specs::Performing::unequal_slots))]
    fn unequal(&mut self, x: usize, y: usize)
        requires x_is_register { x < registers }
        requires y_is_register { y < registers }
        ensures { self.new ≡ unequal_slots registers functions self.old x y }
    {
        let a = self.slot_of(x);
        let b = self.slot_of(y);
        self.part(a, b);
        self.settle(a == b);
    }

    // ---- a letter

    // Whether x := f(y, z) is coherent: a slot holds its value, or it was never computed ("memoizing").
    #[tactic(auto, using(base::proofs::Theory::Choice::decide), unfolding(crate::specs::Performing::memoizing_slots))]
    fn memoizing(&self, f: usize, y: usize, z: usize) -> bool
        requires f_is_function { f < functions }
        requires y_is_register { y < registers }
        requires z_is_register { z < registers }
        ensures { result ≡ memoizing_slots registers self.now.slot self.now.result self.now.ever f y z }
    {
        let b = self.slot_of(z);
        let line = REGISTERS * f + self.slot_of(y);
        if holds(self.ever[line], b) {
            return inhabited(self.result[REGISTERS * line + b]);
        }
        true
    }

    // Whether the test x = y is coherent: nothing above either side is lost ("early"), or the sides are equal already.
    #[tactic(auto, using(base::proofs::Theory::Choice::decide), unfolding(crate::specs::Performing::early_slots))]
    fn early(&self, x: usize, y: usize) -> bool
        requires x_is_register { x < registers }
        requires y_is_register { y < registers }
        ensures { result ≡ early_slots self.now.slot self.now.mark x y }
    {
        if self.mark[x] | self.mark[y] {
            return self.slot_of(x) == self.slot_of(y);
        }
        true
    }

    /// Whether the letter is coherent after a trace with the window of these slots. Its registers lie below REGISTERS and its function below
    /// FUNCTIONS.
    pub fn judge(&self, letter: Letter) -> bool
        requires { WithinPacking letter }
        ensures { result ≡ judge_slots registers functions self.now letter }
    {
        match letter {
            Letter::Copy { .. } | Letter::Unequal { .. } => true,
            Letter::Apply {
                function,
                first,
                second,
                ..
            } => self.memoizing(function as usize, first as usize, second as usize),
            Letter::Equal { first, second } => self.early(first as usize, second as usize),
        }
    }

    /// Performs a letter that is coherent. Its registers lie below REGISTERS and its function below FUNCTIONS.
    pub fn perform(&mut self, letter: Letter)
        requires { WithinPacking letter }
        ensures after { self.new ≡ perform_slots registers functions self.old letter }
        ensures laid { Laid registers functions self.new.slot self.new.regs self.new.unequal self.new.result self.new.ever self.new.mark }
    {
        match letter {
            Letter::Copy { target, source } => self.copy(target as usize, source as usize),
            Letter::Apply {
                target,
                function,
                first,
                second,
            } => self.apply(
                target as usize,
                function as usize,
                first as usize,
                second as usize,
            ),
            Letter::Equal { first, second } => self.equal(first as usize, second as usize),
            Letter::Unequal { first, second } => self.unequal(first as usize, second as usize),
        }
        // Reads nothing: where a field is named, the proof has what the type says of the fields, which `laid` tells callers.
        let _ = &self.slot;
    }

    /// Whether the trace is infeasible.
    pub fn infeasible(&self) -> bool
        ensures { result ≡ self.now.infeasible }
    {
        self.infeasible
    }

    // ---- the window of slots

    // The class of each register.
    #[tactic(auto, using(crate::proofs::Theory::Loops::written), unfolding(crate::specs::Performing::has_slot, window::specs::Adding::part_of))]
    fn pull_classes(&self) -> [Mask; REGISTERS]
        ensures { result ≡ pulled_classes registers self.now.slot self.now.regs }
    {
        let mut next = [0; REGISTERS];
        for (r, m) in next.iter_mut().enumerate() {
            let own = self.regs[self.slot_of(r)];
            *m = part(own, own, r);
        }
        next
    }

    // The mask at entry k of a window's table, where t is the table of slots.
    #[tactic(auto, using(base::proofs::Theory::Choice::decide), unfolding(crate::specs::Performing::pulled_at))]
    fn pulled_entry(&self, t: &[Mask], k: usize) -> Mask
        requires k_is_entry { k < length t.now }
        requires t_in_lines { length t.now % registers ≡ 0 }
        ensures { result ≡ pulled_at registers self.now.slot self.now.regs t.now k }
    {
        let r = k % REGISTERS;
        if self.held(r) {
            return pulled(&self.regs, t[REGISTERS * (k / REGISTERS) + self.slot_of(r)]);
        }
        0
    }

    // A window's table of masks, from the table of slots.
    #[tactic(auto, using(crate::proofs::Theory::Loops::written))]
    fn pull_masks(&self, t: &[Mask], next: &mut [Mask])
        requires next_as_long { length next.old ≡ length t.now }
        requires t_in_lines { length t.now % registers ≡ 0 }
        ensures { next.new ≡ pulled_masks registers self.now.slot self.now.regs t.now (length t.now) }
    {
        for (k, m) in next.iter_mut().enumerate() {
            *m = self.pulled_entry(t, k);
        }
    }

    #[tactic(auto, using(crate::proofs::Theory::Loops::written))]
    fn pull_results(&self) -> [Mask; RESULTS]
        ensures { result ≡ pulled_results registers self.now.slot self.now.regs self.now.result results }
    {
        let mut next = [0; RESULTS];
        for (k, m) in next.iter_mut().enumerate() {
            *m = pulled(&self.regs, self.entry(k));
        }
        next
    }

    // The marks of the registers that have a slot.
    #[tactic(auto, using(crate::proofs::Theory::Loops::written))]
    fn pull_marks(&self) -> [bool; REGISTERS]
        ensures { result ≡ pulled_marks registers self.now.slot self.now.regs self.now.mark }
    {
        let mut next = [false; REGISTERS];
        for (r, m) in next.iter_mut().enumerate() {
            *m = self.held(r) & self.mark[r];
        }
        next
    }

    /// The window of slots.
    pub fn window(&self) -> Window
        ensures { result ≡ window_of registers functions self.now }
    {
        let class = self.pull_classes();
        let mut unequal = [0; REGISTERS];
        self.pull_masks(&self.unequal, &mut unequal);
        let mut ever = [0; LINES];
        self.pull_masks(&self.ever, &mut ever);
        let classes = counted_classes(&class);
        Window {
            class,
            unequal,
            result: self.pull_results(),
            ever,
            mark: self.pull_marks(),
            infeasible: self.infeasible,
            classes,
        }
    }
}

// ---- slots for a window

// What the functions of this part compute is free: `represents` decides whether the slots are those of the window.

// The slot of a class is its lowest register.
#[tactic(auto, using(crate::proofs::Theory::Pulls::lowered))]
fn name_slots(class: &[Mask; REGISTERS]) -> [u8; REGISTERS]
    ensures { Low registers result }
{
    let mut slot = [0; REGISTERS];
    for (r, s) in slot.iter_mut().enumerate() {
        *s = (name(class[r]) % REGISTERS) as u8;
    }
    slot
}

// The registers of each slot.
fn group(class: &[Mask; REGISTERS], lowest: Mask) -> [Mask; REGISTERS] {
    let mut regs = [0; REGISTERS];
    for (s, m) in regs.iter_mut().enumerate() {
        *m = part(lowest, class[s], s);
    }
    regs
}

// What is left of the mask at entry k, if only the slots of `used` are kept: there, and as what the entry stands at.
#[tactic(auto, unfolding(crate::specs::Performing::kept_at))]
fn kept(used: Mask, step: usize, m: Mask, k: usize) -> Mask
    requires { 0 < step }
    ensures { result ≡ kept_at registers used step m k }
{
    part(used, m & used, k / step % REGISTERS)
}

// Keeps the slots of `used` alone.
fn keep(t: &mut [Mask], used: Mask, step: usize)
    requires { 0 < step }
    ensures { length t.new ≡ length t.old }
{
    for (k, m) in t.iter_mut().enumerate() {
        *m = kept(used, step, *m, k);
    }
}

/// For each pair of slots, the slots that hold a result of some function at the two, in either order.
#[tactic(auto, using(crate::proofs::Theory::Loops::written), unfolding(crate::specs::Around::around_of))]
pub fn make_around(res: &[Mask; RESULTS]) -> [Mask; PAIRS]
    ensures value { result ≡ around_of registers functions res.now }
    ensures around { Around registers functions res.now result }
{
    let mut next = [0; PAIRS];
    for (i, m) in next.iter_mut().enumerate() {
        let turned = REGISTERS * (i % REGISTERS) + i / REGISTERS;
        *m = results_at(res, i) | results_at(res, turned);
    }
    next
}

impl SlotWindow {
    // The tables are the parameters: what they travel in is this struct, which is made here.
    /// Slots of these tables, whatever they say; only each register has one of the slots.
    pub fn of_tables(
        slot: [u8; REGISTERS],
        regs: [Mask; REGISTERS],
        unequal: [Mask; REGISTERS],
        results: [Mask; RESULTS],
        ever: [Mask; LINES],
        mark: [bool; REGISTERS],
        infeasible: bool,
    ) -> Self
        requires { Low registers slot }
        ensures value { result ≡ slots_of slot regs unequal results ever mark infeasible }
        ensures laid { Laid registers functions result.slot result.regs result.unequal result.result result.ever result.mark }
    {
        SlotWindow {
            slot,
            regs,
            unequal,
            around: make_around(&results),
            result: results,
            ever,
            mark,
            infeasible,
        }
    }

    /// Slots for a window. What it computes is free: `represents` decides whether they are the window's.
    pub fn of_window(window: &Window) -> Self
        ensures laid { Laid registers functions result.slot result.regs result.unequal result.result result.ever result.mark }
    {
        let lowest = names(&window.class);
        let mut unequal = window.unequal;
        keep(&mut unequal, lowest, 1);
        let mut results = window.result;
        keep(&mut results, lowest, 1);
        keep(&mut results, lowest, REGISTERS);
        let mut ever = window.ever;
        keep(&mut ever, lowest, 1);
        SlotWindow::of_tables(
            name_slots(&window.class),
            group(&window.class, lowest),
            unequal,
            results,
            ever,
            window.mark,
            window.infeasible,
        )
    }
}

// ---- whether slots are those of a window

// The slots that have a register.
#[tactic(auto, unfolding(crate::specs::Performing::used_of))]
fn used(regs: &[Mask; REGISTERS]) -> Mask
    ensures { result ≡ used_of registers regs.now registers }
{
    let mut m = 0;
    for (s, own) in regs.iter().enumerate() {
        m |= single_if(*own != 0, s);
    }
    m
}

// Whether the table has the slots of `used` alone.
#[tactic(auto, unfolding(crate::specs::Performing::clean_of))]
fn clean(t: &[Mask], used: Mask, step: usize) -> bool
    requires { 0 < step }
    ensures { result ≡ clean_of registers used step t.now (length t.now) }
{
    let mut fine = true;
    for (k, m) in t.iter().enumerate() {
        fine &= *m == kept(used, step, *m, k);
    }
    fine
}

// Whether two windows are equal as values, the number of classes included.
// No `==` of Window: the contract is the definition `same_window`, which the proof of `represents` cites; no plainer.
fn same_window(v: &Window, w: &Window) -> bool
    ensures value { result ≡ same_window registers functions v.now w.now }
    ensures same { result ≡ true → v.now ≡ w.now }
{
    let tables = (v.class == w.class)
        & (v.unequal == w.unequal)
        & (v.result == w.result)
        & (v.ever == w.ever);
    tables & (v.mark == w.mark) & (v.infeasible == w.infeasible) & (v.classes == w.classes)
}

impl SlotWindow {
    // The registers below `count` whose slot is s.
    #[tactic(auto, unfolding(crate::specs::Performing::members_of))]
    fn members(&self, count: usize, s: usize) -> Mask
        ensures { result ≡ members_of registers self.now.slot count s registers }
    {
        let mut m = 0;
        for r in 0..REGISTERS {
            m |= single_if((r < count) & (self.slot[r] as usize == s), r);
        }
        m
    }

    // Whether each slot has the registers that name it.
    #[tactic(auto, unfolding(crate::specs::Performing::grouped_of))]
    fn grouped(&self, count: usize) -> bool
        ensures { result ≡ grouped_of registers self.now.slot self.now.regs count registers }
    {
        let mut fine = true;
        for s in 0..REGISTERS {
            fine &= ((self.slot[s] as usize) < REGISTERS)
                & (self.regs[s] == self.members(count, s));
        }
        fine
    }

    // Whether each register below `count` has its slot, a free slot is in no mask and has the empty one, and no result is in two slots.
    #[tactic(auto, unfolding(crate::specs::Performing::regular_of))]
    fn regular(&self, count: usize) -> bool
        ensures value { result ≡ regular_of registers functions self.now count }
        ensures laid { Laid registers functions self.now.slot self.now.regs self.now.unequal self.now.result self.now.ever self.now.mark }
    {
        let inhabited = used(&self.regs);
        let tables = ((self.grouped(count) & clean(&self.unequal, inhabited, 1))
            & clean(&self.ever, inhabited, 1))
            & clean(&self.result, inhabited, 1);
        (tables & clean(&self.result, inhabited, REGISTERS)) & !doubled(&self.result)
    }

    /// Whether these are the slots of the window, with that count of registers.
    #[tactic(auto, using(base::proofs::Theory::Choice::decide), unfolding(crate::specs::Performing::represents_of))]
    pub fn represents(&self, window: &Window, count: usize) -> bool
        ensures value { result ≡ represents_of registers functions window.now self.now count }
        ensures same { result ≡ true → window.now ≡ window_of registers functions self.now }
        ensures stands { result ≡ true → RepresentsWindow registers functions count self.now window.now }
    {
        if REGISTERS < count {
            return false;
        }
        if self.regular(count) {
            return same_window(window, &self.window());
        }
        false
    }
}
