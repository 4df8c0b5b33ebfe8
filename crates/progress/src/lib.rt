// The progress of a check, and one record against 10 to 12: document 01, "Where each refusal is checked"; document 02, A.7 and A.11.
#![tactic(auto)]

ghost use Rattle.std.specs.Prelude.{◌≡◌, ◌&&◌, ◌≤◌, ◌<◌, eqb};
ghost use Rattle.model.specs.Label;
ghost use Rattle.model.specs.Formula.{C, Y, X};
ghost use Rattle.model.specs.Check.{idle, opens, kind_of, in_turn, in_row, counted, length_y};
ghost use Rattle.model.specs.Check;
ghost use Rattle.progress.specs.Steps.{open_of, open_number, progress_of, total, judged, first_of, refusal_of, right_in};

use numbers::within;

// Record 0: N, n and s.
#[derive(Clone, Copy)]
pub struct Head {
    pub order: u32,
    pub coefficients: u32,
    pub slots: u32,
}

// What is open.
// Kept: an Option of a table and its number, tried in four forms, is slower somewhere in each; the best takes 15 percent more for a sweep's file.
#[derive(Clone, Copy)]
pub enum Target {
    Nothing,
    C,
    Y,
    X,
}

// What is open and its number, and how many entries of C, Y and X are closed; of C those are always 1 up to the highest closed
// (document 02, A.11).
#[derive(Clone, Copy)]
pub struct Progress {
    pub target: Target,
    pub number: u32,
    pub c: u32,
    pub y: u32,
    pub x: u32,
}

// A record's four words.
// Kept: the kind by its number, since any number may stand there, and `judge` says which is none (document 01's form).
#[derive(Clone, Copy)]
pub struct Record {
    pub kind: u32,
    pub p: u32,
    pub q: u32,
    pub next: u32,
}

// What is wrong with a record: 10, its kind or an operand that the kind does not use; 11, what is open; 12, an operand.
#[derive(Clone, Copy)]
pub enum Fault {
    Kind,
    Open,
    Operand,
}

// Nothing is open, and nothing closed.
pub fn begun() -> Progress
    ensures { progress_of result ≡ Check.begun }
{
    Progress {
        target: Target::Nothing,
        number: 0,
        c: 0,
        y: 0,
        x: 0,
    }
}

// Whether a record is refused by none of 10 to 12. In a Crout program what is open is asked first, which leaves few kinds: a right record passes
// by three or four tests, and `judge`, by kinds, is left to name what is wrong.
#[inline(always)]
pub fn is_right(h: Head, g: Progress, r: Record) -> bool
    requires { total (progress_of g) ≤ 100000000 }
    ensures { result ≡ right_in h g r.kind r.p r.q }
{
    if h.slots == 0 {
        return judge_row(h, g, r).is_ok();
    }
    let target = g.target;
    let open = open_number(target);
    if open == 0 {
        return opens_rightly(h, g, r);
    }
    if r.kind == open + 3 {
        return readable(h, g, r);
    }
    if r.kind == 7 {
        return r.q == 0 && within(r.p, g.c);
    }
    if r.kind == 8 {
        return unused(r.p, r.q);
    }
    r.kind == 9 && (open == 1 && unused(r.p, r.q))
}

// The same while nothing is open: only kinds 1 to 3 are right.
fn opens_rightly(h: Head, g: Progress, r: Record) -> bool
    requires { (0 < h.slots) × ((progress_of g).target ≡ idle) × (total (progress_of g) ≤ 100000000) }
    ensures { result ≡ right_in h g r.kind r.p r.q }
{
    if r.kind == 1 {
        return turn_of_c(h, g, r.p, r.q);
    }
    if r.kind == 2 {
        return r.q == 0 && turn_of_y(h, g, r.p);
    }
    if r.kind == 3 {
        return r.q == 0 && turn_of_x(h, g, r.p);
    }
    false
}

// One record against 10 to 12.
// Kept: the kind by its number: document 01 asks for a match over kinds, with a range for the refused ones (tests/forms.sh, judge).
pub fn judge(h: Head, g: Progress, r: Record) -> Result<(), Fault>
    requires { total (progress_of g) ≤ 100000000 }
    ensures { judged result ≡ refusal_of h g r.kind r.p r.q }
{
    if h.slots == 0 {
        return judge_row(h, g, r);
    }
    let kind = r.kind;
    let target = g.target;
    let open = open_number(target);
    match kind {
        1 => first_of(true, open == 0, turn_of_c(h, g, r.p, r.q)),
        2 => first_of(r.q == 0, open == 0, turn_of_y(h, g, r.p)),
        3 => first_of(r.q == 0, open == 0, turn_of_x(h, g, r.p)),
        4 | 5 | 6 => first_of(true, open == kind - 3, readable(h, g, r)),
        7 => first_of(r.q == 0, open != 0, within(r.p, g.c)),
        8 => first_of(unused(r.p, r.q), open != 0, true),
        9 => first_of(unused(r.p, r.q), open == 1, true),
        0 | 10..=u32::MAX => Err(Fault::Kind),
    }
}

// The same with s = 0, in a sweep (A.7): 10 opens a row, 11 subtracts, 12 divides, 8 closes, and no other kind passes 10.
fn judge_row(h: Head, g: Progress, r: Record) -> Result<(), Fault>
    requires { (h.slots ≡ 0) × (total (progress_of g) ≤ 100000000) }
    ensures { judged result ≡ refusal_of h g r.kind r.p r.q }
{
    let kind = r.kind;
    let target = g.target;
    let open = open_number(target);
    match kind {
        8 => first_of(unused(r.p, r.q), open != 0, true),
        10 => first_of(r.q == 0, open == 0, turn_of_row(h, g, r.p)),
        11 => first_of(true, open == 3, readable_in_row(h, r.p, r.q)),
        12 => first_of(r.q == 0, open != 0, within(r.p, h.coefficients)),
        _ => Err(Fault::Kind),
    }
}

// 10, then 11, then 12, by the tests that a kind makes.
#[tactic(auto, unfolding(crate::specs::Steps::first_of))]
fn first_of(formed: bool, ordered: bool, turned: bool) -> Result<(), Fault>
    ensures { judged result ≡ first_of formed ordered turned }
{
    if !formed {
        return Err(Fault::Kind);
    }
    if !ordered {
        return Err(Fault::Open);
    }
    if !turned {
        return Err(Fault::Operand);
    }
    Ok(())
}

// The progress after a record: kinds 1 to 3 and 10 open a target, 8 and 9 close it.
#[inline(always)]
pub fn onward(r: Record, g: &mut Progress)
    requires { total (progress_of g.old) ≤ 100000000 }
    ensures { progress_of g.new ≡ Check.onward (kind_of r.kind) r.p r.q (progress_of g.old) }
{
    match r.kind {
        1 => open(g, Target::C, r.q),
        2 => open(g, Target::Y, r.p),
        3 | 10 => open(g, Target::X, r.p),
        8 | 9 => close(g),
        _ => {}
    }
}

// 13: nothing is open, and C, Y and X are all closed.
#[tactic(auto, unfolding(model::specs::Check::complete))]
pub fn complete(h: Head, g: Progress) -> bool
    ensures { result ≡ Check.complete h.order h.slots (progress_of g) }
{
    let order = h.order;
    let slots = h.slots;
    matches!(g.target, Target::Nothing)
        && (g.c == slots && (g.y == length_of_y(order, slots) && g.x == order))
}

// How many entries Y has: N, or none in a sweep, where s = 0 (document 02, A.7).
pub fn length_of_y(order: u32, slots: u32) -> u32
    ensures { result ≡ length_y order slots }
{
    if slots == 0 { 0 } else { order }
}

// The number of the open table, 0 if none is open.
// Kept: 0 to 3, since kinds 1 to 3 open these and kinds 4 to 6 are these and 3; a match on pairs would be no plainer.
fn open_number(target: Target) -> u32
    ensures { result ≡ open_number target }
{
    match target {
        Target::Nothing => 0,
        Target::C => 1,
        Target::Y => 2,
        Target::X => 3,
    }
}

// 10 of kinds 8 and 9: both operands are 0.
fn unused(p: u32, q: u32) -> bool
    ensures { result ≡ (eqb p 0 && eqb q 0) }
{
    p == 0 && q == 0
}

// 12 of kind 1: C(q) opens, one of the slots and at most one above the highest closed, with A(p), or with zero if p is 0.
#[tactic(auto, unfolding(model::specs::Check::in_turn))]
fn turn_of_c(h: Head, g: Progress, p: u32, q: u32) -> bool
    ensures { result ≡ in_turn h.order h.coefficients h.slots (opens C) p q (progress_of g) }
{
    p <= h.coefficients && (within(q, h.slots) && q - 1 <= g.c)
}

// 12 of kind 2: Y(p) opens after the closed ones.
#[tactic(auto, unfolding(model::specs::Check::in_turn))]
fn turn_of_y(h: Head, g: Progress, p: u32) -> bool
    requires { total (progress_of g) ≤ 100000000 }
    ensures { result ≡ in_turn h.order h.coefficients h.slots (opens Y) p 0 (progress_of g) }
{
    p == g.y + 1 && p <= h.order
}

// 12 of kind 3: X(p) opens below the closed ones, with Y(p), which is closed.
#[tactic(auto, unfolding(model::specs::Check::in_turn))]
fn turn_of_x(h: Head, g: Progress, p: u32) -> bool
    requires { total (progress_of g) ≤ 100000000 }
    ensures { result ≡ in_turn h.order h.coefficients h.slots (opens X) p 0 (progress_of g) }
{
    let order = h.order;
    let x = g.x;
    within(p, g.y) && p + x == order
}

// 12 of kinds 4 to 6: C(p) is closed, and so is C(q), Y(q) or X(q).
fn readable(h: Head, g: Progress, r: Record) -> bool
    requires { (4 ≤ r.kind) × (r.kind ≤ 6) }
    ensures { result ≡ in_turn h.order h.coefficients h.slots (kind_of r.kind) r.p r.q (progress_of g) }
{
    if !within(r.p, g.c) {
        return false;
    }
    match r.kind {
        4 => within(r.q, g.c),
        5 => within(r.q, g.y),
        _ => within(r.q, h.order) && h.order - r.q < g.x,
    }
}

// 12 of kind 10: X(p) opens after the closed ones.
#[tactic(auto, unfolding(model::specs::Check::in_row))]
fn turn_of_row(h: Head, g: Progress, p: u32) -> bool
    requires { total (progress_of g) ≤ 100000000 }
    ensures { result ≡ in_row h.order h.coefficients (opens X) p 0 (progress_of g) }
{
    p == g.x + 1 && p <= h.order
}

// 12 of kind 11: A(p) is in the plan, and X(q) any entry, closed in this sweep or not.
fn readable_in_row(h: Head, p: u32, q: u32) -> bool
    ensures { result ≡ (Label.within p h.coefficients && Label.within q h.order) }
{
    within(p, h.coefficients) && within(q, h.order)
}

// The target's entry of that number is open.
fn open(g: &mut Progress, target: Target, number: u32)
    ensures { progress_of g.new ≡ record { target = open_of target number; c = g.old.c; y = g.old.y; x = g.old.x } }
{
    g.target = target;
    g.number = number;
}

// The open entry is closed, and none is open.
fn close(g: &mut Progress)
    requires { total (progress_of g.old) ≤ 100000000 }
    ensures { progress_of g.new ≡ counted (progress_of g.old).target (progress_of g.old) }
{
    match g.target {
        Target::Nothing => {}
        Target::C => g.c = g.c.max(g.number),
        Target::Y => g.y += 1,
        Target::X => g.x += 1,
    }
    g.target = Target::Nothing;
    g.number = 0;
}
