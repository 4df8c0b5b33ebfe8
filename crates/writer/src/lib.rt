// The writer: the records of a plan's formulas, from its work numbers. Document 01, "Records".
#![tactic(auto)]

pub mod rows;
pub mod slotted;

ghost use Rattle.std.specs.Prelude.{◌≡◌, cond, ◌∷◌, [], ◌++◌, eqb, suc, ◌-◌, ◌*◌, ◌≤◌, min, length, drop, set};
ghost use Rattle.model.specs.Fill.{record_count};
ghost use Rattle.model.specs.Crout.{forward, backward};
ghost use Rattle.model.specs.Program.{rec, records_of, program};
ghost use Rattle.model.proofs.Labels.{Inside};
ghost use Rattle.model.proofs.Pointer.{is_next, passed_by};
ghost use Rattle.writer.specs.Kinds.{number_of};
ghost use Rattle.writer.specs.Written.{Room, Wrote, product_of, quotient_of};
ghost use Rattle.writer.specs.Worked.{number_at, kept_at, Covers, inner_at, product_at, up_to, down_to, NoneBelow, formula_at};
ghost use Rattle.writer.specs.Prepared.{Prepared};
ghost use Rattle.writer.specs.Line.{Before, divisor_of, place_at, line_records, batch_at, batch_records, solution_records, plan_records};
ghost use Rattle.slots.specs.Batch.{row_of, column_of, first_of};

use numbers::wide;
use slots::lines::{column_of, first_of, row_of, zeros};
use slotted::Slotted;

// What a record does, by the number that stands in it: documents 01, "Records", and 02, A.7. Less.. subtracts a product of entries of the two tables
// named, the coefficients A, C, Y or X.
#[derive(Clone, Copy)]
enum Kind {
    OpenC = 1,
    OpenY = 2,
    OpenX = 3,
    LessCC = 4,
    LessCY = 5,
    LessCX = 6,
    DivideByC = 7,
    Close = 8,
    ClosePivot = 9,
    OpenRow = 10,
    LessAX = 11,
    DivideByA = 12,
}

// How far the plan is written: the next free record, the places done and the plan's labels among them.
#[derive(Clone, Copy)]
pub struct Cursor {
    pub next: u32,
    pub done: u32,
    pub passed: u32,
}

// A place of the table that is held: its row and column, its slot, its position in the plan, 0 if it isn't there, and the slot that its formula
// is divided by, 0 for none.
// Kept: 0 for none, since the record has that 0 for its operand (document 01, kind 1), and the work numbers have it for a place that isn't held.
#[derive(Clone, Copy)]
struct Place {
    row: u32,
    column: u32,
    slot: u32,
    position: u32,
    divisor: u32,
}

// The whole program of a plan, with the work numbers for its slots: record 0, the batches, the solution; the last record's next is 0.
pub fn write(
    n: u32,
    plan: &[u32],
    work: &[u32],
    rows: &[u32],
    columns: &[u32],
    words: &mut [u32],
    slots: u32,
)
    requires { Prepared n plan.now work.now rows.now columns.now words.old }
    ensures { words.new ≡ program n (length plan.now) slots (plan_records n plan.now work.now)
        ++ drop (4 * record_count n plan.now) words.old }
{
    let slotted = Slotted {
        n,
        plan,
        work,
        rows,
        columns,
    };
    head(n, plan, words, slots);
    let first = write_batches(&slotted, words);
    let end = write_solution(&slotted, words, first);
    finish(words, end);
}

// Record 0.
fn head(n: u32, plan: &[u32], words: &mut [u32], slots: u32)
    requires { (length plan.now ≤ 360000) × (4 ≤ length words.old) }
    ensures { words.new ≡ n ∷ length plan.now ∷ slots ∷ 1 ∷ drop 4 words.old }
{
    words[0] = n;
    words[1] = plan.len() as u32;
    words[2] = slots;
    words[3] = 1;
}

// The chain ends with the record before end.
fn finish(words: &mut [u32], end: u32)
    requires { (1 ≤ end) × (4 * end ≤ length words.old) }
    ensures { words.new ≡ set words.old (4 * end - 1) 0 }
{
    let last = 4 * wide(end) - 1;
    words[last] = 0;
}

// The batches, in order; the answer is the next free record.
fn write_batches(slotted: &Slotted, words: &mut [u32]) -> u32
    requires { Room 0 1 (batch_records slotted.now.n slotted.now.plan.now slotted.now.work.now) words.old }
    ensures { Wrote 0 1 (batch_records slotted.now.n slotted.now.plan.now slotted.now.work.now) words.old words.new result }
{
    let mut at = Cursor {
        next: 1,
        done: 0,
        passed: 0,
    };
    for m in 1..=slotted.n {
        at = write_batch(slotted, words, m, at);
    }
    at.next
}

// Batch m: its column, y(m), and its row.
fn write_batch(slotted: &Slotted, words: &mut [u32], m: u32, at: Cursor) -> Cursor
    requires inside { Inside slotted.now.n m m }
    requires before { Before slotted.now.n slotted.now.plan.now m m at }
    requires room { Room 0 at.next (batch_at slotted.now.n slotted.now.plan.now slotted.now.work.now m) words.old }
    ensures wrote { Wrote 0 at.next (batch_at slotted.now.n slotted.now.plan.now slotted.now.work.now m) words.old words.new result.next }
    ensures before_2 { Before slotted.now.n slotted.now.plan.now (suc m) (suc m) result }
{
    let pivot = slotted.work[wide(at.done)];
    let column = write_line(slotted, words, m, false, 0, at);
    let start = 4 * wide(column.next);
    let after = write_forward(
        slotted.n,
        slotted.work,
        &mut words[start..],
        column.next,
        m,
        pivot,
        slotted.rows[wide(m)],
    );
    let turned = Cursor {
        next: after,
        ..column
    };
    write_line(slotted, words, m, true, pivot, turned)
}

// Batch m's column from the diagonal down or, across, its row right of the diagonal; a row's formulas are divided by the pivot.
// Kept: across as a bool, as row_of and column_of take it.
fn write_line(
    slotted: &Slotted,
    words: &mut [u32],
    m: u32,
    across: bool,
    divisor: u32,
    mut at: Cursor,
) -> Cursor
    requires inside { Inside slotted.now.n m m }
    requires divisor_value { divisor ≡ divisor_of slotted.now.n slotted.now.work.now across m }
    requires before { Before slotted.now.n slotted.now.plan.now (row_of across m (first_of across m)) (column_of across m (first_of across m)) at }
    requires room { Room 0 at.next (line_records slotted.now.n slotted.now.plan.now slotted.now.work.now across m) words.old }
    ensures wrote { Wrote 0 at.next (line_records slotted.now.n slotted.now.plan.now slotted.now.work.now across m) words.old words.new result.next }
    ensures before_2 { Before slotted.now.n slotted.now.plan.now (row_of across m (suc slotted.now.n))
        (column_of across m (suc slotted.now.n)) result }
{
    let mut t = first_of(across, m);
    // By hand: t passes over the run of places that are not held, whose length a turn finds; a `for` has no such step.
    while t <= slotted.n {
        let i = row_of(across, m, t);
        let j = column_of(across, m, t);
        at = write_next(slotted, words, i, j, divisor, at);
        let empty = zeros(slotted.work, wide(at.done), slotted.n - t);
        at.done += empty;
        t += empty + 1;
    }
    at
}

// The next place, (i, j): its formula, if it is held, goes into the rest of the words, lent from the next free record on.
pub fn write_next(
    slotted: &Slotted,
    words: &mut [u32],
    i: u32,
    j: u32,
    divisor: u32,
    at: Cursor,
) -> Cursor
    requires inside { Inside slotted.now.n i j }
    requires before { Before slotted.now.n slotted.now.plan.now i j at }
    requires room { Room 0 at.next (place_at slotted.now.n slotted.now.plan.now slotted.now.work.now divisor i j) words.old }
    ensures wrote { Wrote 0 at.next (place_at slotted.now.n slotted.now.plan.now slotted.now.work.now divisor i j) words.old words.new result.next }
    ensures done_value { (result.done ≡ suc at.done) × (result.passed ≡ passed_by slotted.now.plan.now result.done) }
{
    let slot = slotted.work[wide(at.done)];
    let label = at.done + 1;
    if slot == 0 {
        return Cursor { done: label, ..at };
    }
    let position = position(slotted.plan, at.passed, label);
    let place = Place {
        row: i,
        column: j,
        slot,
        position,
        divisor,
    };
    let from = slotted.rows[wide(i)].max(slotted.columns[wide(j)]);
    let start = 4 * wide(at.next);
    let after = write_place(
        slotted.n,
        slotted.work,
        &mut words[start..],
        at.next,
        place,
        from,
    );
    Cursor {
        next: after,
        done: label,
        passed: at.passed.max(position),
    }
}

// The position of a label in the plan, 0 if it isn't there; the labels before it are passed.
// Kept: 0 for none, as it is written into the record.
fn position(plan: &[u32], passed: u32, label: u32) -> u32
    requires { passed ≤ 360000 }
    ensures { result ≡ cond (is_next plan.now passed label) (suc passed) 0 }
{
    let at = wide(passed);
    if at < plan.len() && plan[at] == label {
        passed + 1
    } else {
        0
    }
}

// x(i) for i = n..1, from record k on.
fn write_solution(slotted: &Slotted, words: &mut [u32], k: u32) -> u32
    requires { Room 0 k (solution_records slotted.now.n slotted.now.work.now) words.old }
    ensures { Wrote 0 k (solution_records slotted.now.n slotted.now.work.now) words.old words.new result }
{
    let mut next = k;
    for i in (1..=slotted.n).rev() {
        let start = 4 * wide(next);
        next = write_backward(slotted.n, slotted.work, &mut words[start..], next, i);
    }
    next
}

// The formula of a place: l on and below the diagonal, u above it. No product is kept for an h below from.
fn write_place(n: u32, work: &[u32], rest: &mut [u32], k: u32, place: Place, from: u32) -> u32
    requires covers { Covers n work.now }
    requires inside { Inside n place.row place.column }
    requires none_below { NoneBelow (inner_at n work.now place.row place.column) from (min place.row place.column) }
    requires room { Room k k (records_of (formula_at n work.now place.slot place.position place.divisor place.row place.column)) rest.old }
    ensures { Wrote k k (records_of (formula_at n work.now place.slot place.position place.divisor place.row place.column))
        rest.old rest.new result }
{
    let opened = put(rest, k, k, Kind::OpenC, place.position, place.slot);
    let reduced = write_inner(n, work, rest, k, opened, place.row, place.column, from);
    let divided = divide(rest, k, reduced, Kind::DivideByC, place.divisor);
    put(rest, k, divided, closing(place.row, place.column), 0, 0)
}

// The kind that closes the formula of place (i, j).
fn closing(i: u32, j: u32) -> Kind
    ensures { number_of result ≡ cond (eqb i j) 9 8 }
{
    if i == j {
        Kind::ClosePivot
    } else {
        Kind::Close
    }
}

// y(m), divided by the pivot. No product is kept for an h below from.
// Kept: Covers is a clause, since a sweep's work numbers, which are no Slotted, have it too.
pub fn write_forward(
    n: u32,
    work: &[u32],
    rest: &mut [u32],
    k: u32,
    m: u32,
    pivot: u32,
    from: u32,
) -> u32
    requires covers { Covers n work.now }
    requires inside { Inside n m m }
    requires pivot_value { pivot ≡ number_at n work.now m m }
    requires none_below { NoneBelow (product_at n work.now 5 m) from m }
    requires room { Room k k (records_of (forward n [] (number_at n work.now) (kept_at n work.now) m)) rest.old }
    ensures { Wrote k k (records_of (forward n [] (number_at n work.now) (kept_at n work.now) m))
        rest.old rest.new result }
{
    let opened = put(rest, k, k, Kind::OpenY, m, 0);
    let reduced = write_left(n, work, rest, k, opened, Kind::LessCY, m, from);
    let divided = divide(rest, k, reduced, Kind::DivideByC, pivot);
    put(rest, k, divided, Kind::Close, 0, 0)
}

// x(i).
pub fn write_backward(n: u32, work: &[u32], rest: &mut [u32], k: u32, i: u32) -> u32
    requires covers { Covers n work.now }
    requires inside { Inside n i i }
    requires room { Room k k (records_of (backward n [] (number_at n work.now) (kept_at n work.now) i)) rest.old }
    ensures { Wrote k k (records_of (backward n [] (number_at n work.now) (kept_at n work.now) i))
        rest.old rest.new result }
{
    let opened = put(rest, k, k, Kind::OpenX, i, 0);
    let reduced = write_right(n, work, rest, k, opened, i);
    put(rest, k, reduced, Kind::Close, 0, 0)
}

// The products l(i,h) u(h,j), h rising to below i and j; none is kept for an h below from. Labels along row i and column j grow by 2 (n - h)
// and by one less.
// Kept: one function in place of the four that write products is no plainer, since each steps along its labels in its own way.
fn write_inner(
    n: u32,
    work: &[u32],
    rest: &mut [u32],
    first: u32,
    k: u32,
    i: u32,
    j: u32,
    from: u32,
) -> u32
    requires covers { Covers n work.now }
    requires inside { Inside n i j }
    requires none_below { NoneBelow (inner_at n work.now i j) from (min i j) }
    requires room { Room first k (up_to (inner_at n work.now i j) (min i j)) rest.old }
    ensures { Wrote first k (up_to (inner_at n work.now i j) (min i j)) rest.old rest.new result }
{
    let start = from.max(1);
    let end = i.min(j);
    let mut next = k;
    let mut across = wide(labels::label(n, i, start));
    let mut down = wide(labels::label(n, start, j));
    for h in start..end {
        next = subtract(
            rest,
            first,
            next,
            Kind::LessCC,
            work[across - 1],
            work[down - 1],
        );
        let step = 2 * wide(n - h);
        across += step;
        down += step - 1;
    }
    next
}

// The products of row m's entries left of the diagonal, h rising to below m: l(m,h) y(h) by kind 5, a(m,h) x(h) by kind 11. None is kept for an h
// below from.
fn write_left(
    n: u32,
    work: &[u32],
    rest: &mut [u32],
    first: u32,
    k: u32,
    kind: Kind,
    m: u32,
    from: u32,
) -> u32
    requires covers { Covers n work.now }
    requires inside { Inside n m m }
    requires none_below { NoneBelow (product_at n work.now (number_of kind) m) from m }
    requires room { Room first k (up_to (product_at n work.now (number_of kind) m) m) rest.old }
    ensures { Wrote first k (up_to (product_at n work.now (number_of kind) m) m) rest.old rest.new result }
{
    let start = from.max(1);
    let mut next = k;
    let mut across = wide(labels::label(n, m, start));
    for h in start..m {
        let p = work[across - 1];
        across += 2 * wide(n - h);
        next = subtract(rest, first, next, kind, p, h);
    }
    next
}

// The products u(i,h) x(h), h falling from n to above i.
fn write_right(n: u32, work: &[u32], rest: &mut [u32], first: u32, k: u32, i: u32) -> u32
    requires covers { Covers n work.now }
    requires inside { Inside n i i }
    requires room { Room first k (down_to (product_at n work.now 6 i) n i) rest.old }
    ensures { Wrote first k (down_to (product_at n work.now 6 i) n i) rest.old rest.new result }
{
    let mut next = k;
    let mut across = wide(labels::label(n, i, n));
    // n + 1 and not ..=n, which takes more steps for each h
    for h in (i + 1..n + 1).rev() {
        next = subtract(rest, first, next, Kind::LessCX, work[across - 1], h);
        across -= 1;
    }
    next
}

// One product, unless a factor's work number is 0.
fn subtract(words: &mut [u32], first: u32, k: u32, kind: Kind, p: u32, q: u32) -> u32
    requires { Room first k (product_of (number_of kind) p q) words.old }
    ensures { Wrote first k (product_of (number_of kind) p q) words.old words.new result }
{
    if p == 0 || q == 0 {
        return k;
    }
    put(words, first, k, kind, p, q)
}

// The division, unless the divisor is 0.
fn divide(words: &mut [u32], first: u32, k: u32, kind: Kind, divisor: u32) -> u32
    requires { Room first k (quotient_of (number_of kind) divisor) words.old }
    ensures { Wrote first k (quotient_of (number_of kind) divisor) words.old words.new result }
{
    if divisor == 0 {
        return k;
    }
    put(words, first, k, kind, divisor, 0)
}

// Record k of words, whose first record has index first; its next is the following index, which is the answer.
// Kept: slices one by one: a struct that holds a &mut would need a clause in each contract that it is still the same, no plainer.
fn put(words: &mut [u32], first: u32, k: u32, kind: Kind, p: u32, q: u32) -> u32
    requires { Room first k (rec (number_of kind) p q ∷ []) words.old }
    ensures { Wrote first k (rec (number_of kind) p q ∷ []) words.old words.new result }
{
    let at = 4 * wide(k - first);
    let next = k + 1;
    words[at] = kind as u32;
    words[at + 1] = p;
    words[at + 2] = q;
    words[at + 3] = next;
    next
}
