// Slots given to the places of a plan, and given again: document 02, A.11. The places are walked in dense order; no record is looked at.
#![tactic(auto)]

ghost use Rattle.std.specs.Prelude.{◌≡◌, cond, ◌∷◌, ℕ, suc, ◌+◌, ◌-◌, ◌*◌, ◌≤◌, ◌<◌, max, length, get_or, drop};
ghost use Rattle.model.specs.Fill.{Plan};
ghost use Rattle.model.proofs.Labels.{Inside};
ghost use Rattle.reuse.specs.Places.{Gave, freed_along, SomeColumn, ColumnAt, SomeRow, RowAt, SomeBatch, BatchAt, Numbered, Gives};

use numbers::wide;
use slots::lines::zeros;

// How far the places are walked, where the free slots begin, the one freed last first, and how many slots there are of all.
#[derive(Clone, Copy)]
pub struct Walk {
    pub done: u32,
    pub top: usize,
    pub made: u32,
}

// Gives each place that has a number, that is the held ones, a slot in its place. A value needs its slot up to its last reading record, and then
// the slot is given again: l(m,h) is read last by u(m,j) for the last j with (h,j) held, or by y(m), a pivot in the last formula of its batch,
// and u in the solution. The free slots stand at the end of the slice. The answer is how many slots there are.
pub fn assign(n: u32, rows: &[u32], given: &mut [u32]) -> u32
    requires { Numbered n rows.now given.old }
    ensures { (L : Plan) → Gives n L rows.now given.old given.new result }
{
    let mut last = [0u32; 601];
    let mut walk = Walk {
        done: 0,
        top: given.len(),
        made: 0,
    };
    for m in 1..=n {
        walk = assign_batch(n, rows, &mut last, given, m, walk);
    }
    walk.made
}

// Batch m: its column, y(m), its row, and the pivot's slot, which is free then.
fn assign_batch(
    n: u32,
    rows: &[u32],
    last: &mut [u32],
    given: &mut [u32],
    m: u32,
    walk: Walk,
) -> Walk
    requires inside { Inside n m m }
    requires some_batch { SomeBatch n (m - 1) rows.now last.old given.old walk }
    ensures { (L : Plan) → BatchAt n L (m - 1) rows.now last.old given.old walk
        → BatchAt n L m rows.now last.new given.new result }
{
    let pivot = wide(walk.done);
    let column = assign_column(n, given, m, walk);
    let from = rows[wide(m)];
    let start = release(n, from, last, given, m, m, column.top);
    let turned = Walk {
        top: start,
        ..column
    };
    let row = assign_row(n, from, last, given, m, turned);
    let slot = given[pivot];
    let top = push(given, row.top, slot, true);
    Walk { top, ..row }
}

// Column m from the diagonal down: each held place is given a slot.
fn assign_column(n: u32, given: &mut [u32], m: u32, mut walk: Walk) -> Walk
    requires inside { Inside n m m }
    requires some_column { SomeColumn n m m given.old walk }
    ensures { (L : Plan) → ColumnAt n L m m given.old walk → ColumnAt n L m (suc n) given.new result }
{
    let mut t = m;
    // By hand: t passes over the run of places that are not held, whose length a turn finds; a `for` has no such step.
    while t <= n {
        walk = next_place(given, walk);
        let empty = zeros(given, wide(walk.done), n - t);
        walk.done += empty;
        t += empty + 1;
    }
    walk
}

// Row m right of the diagonal: each held place is given a slot, and its formula frees those that it reads last. The row's last held place is
// noted.
// Kept: one function for column and row is no plainer: a row also takes from and last, notes its last place and frees slots.
fn assign_row(
    n: u32,
    from: u32,
    last: &mut [u32],
    given: &mut [u32],
    m: u32,
    mut walk: Walk,
) -> Walk
    requires inside { Inside n m m }
    requires some_row { SomeRow n m m from last.old given.old walk }
    ensures { (L : Plan) → RowAt n L m m from last.old given.old walk
        → RowAt n L m n from last.new given.new result }
{
    let mut t = m + 1;
    // By hand: t passes over the run of places that are not held, whose length a turn finds; a `for` has no such step.
    while t <= n {
        walk = next_in_row(n, from, last, given, m, t, walk);
        let empty = zeros(given, wide(walk.done), n - t);
        walk.done += empty;
        t += empty + 1;
    }
    walk
}

// The next place of row m, (m, t).
fn next_in_row(
    n: u32,
    from: u32,
    last: &mut [u32],
    given: &mut [u32],
    m: u32,
    t: u32,
    walk: Walk,
) -> Walk
    requires inside { Inside n m t × (m < t) }
    requires some_row { SomeRow n m (t - 1) from last.old given.old walk }
    ensures { (L : Plan) → RowAt n L m (t - 1) from last.old given.old walk
        → RowAt n L m t from last.new given.new result }
{
    let held = given[wide(walk.done)] != 0;
    let at = next_place(given, walk);
    if !held {
        return at;
    }
    last[wide(m)] = t;
    let top = release(n, from, last, given, m, t, at.top);
    Walk { top, ..at }
}

// The next place, if it is held, is given the slot that was freed last, or a new one if none is free.
fn next_place(given: &mut [u32], walk: Walk) -> Walk
    requires done_in_bounds { (walk.done < length given.old) × (walk.top ≤ length given.old) }
    requires done_bound { (walk.done ≤ 360000) × (walk.made ≤ 360000) }
    ensures { Gave given.old walk given.new result }
{
    let at = wide(walk.done);
    let done = walk.done + 1;
    if given[at] == 0 {
        return Walk { done, ..walk };
    }
    if walk.top < given.len() {
        given[at] = given[walk.top];
        return Walk {
            done,
            top: walk.top + 1,
            ..walk
        };
    }
    let made = walk.made + 1;
    given[at] = made;
    Walk { done, made, ..walk }
}

// The slots of l(m,h), h rising, that are read last by u(m,t), or by y(m) for t = m, are free. None of row m is held before from. Labels along
// row m grow by 2 (n - h).
fn release(
    n: u32,
    from: u32,
    last: &[u32],
    given: &mut [u32],
    m: u32,
    t: u32,
    mut top: usize,
) -> usize
    requires inside { Inside n m m × ((n ≤ 600) × (length last.now ≡ 601)) }
    requires m_bound { (n * n + m ≤ top) × (top ≤ length given.old) }
    ensures given_after { drop result given.new
        ≡ freed_along n last.now given.old m t (max 1 from) (drop top given.old) }
    ensures lower_bound { (n * n ≤ result) × (result ≤ length given.old) }
    ensures by_index { (k : ℕ) → k < n * n → get_or given.new k 0 ≡ get_or given.old k 0 }
{
    let start = from.max(1);
    let mut across = wide(labels::label(n, m, start));
    for h in start..m {
        let slot = given[across - 1];
        let dies = slot != 0 && m.max(last[wide(h)]) == t;
        top = push(given, top, slot, dies);
        across += 2 * wide(n - h);
    }
    top
}

// A slot goes on top of the free ones, if it is free.
fn push(given: &mut [u32], top: usize, slot: u32, freed: bool) -> usize
    requires { (0 < top) × (top ≤ length given.old) }
    ensures given_after { drop result given.new ≡ cond freed (slot ∷ drop top given.old) (drop top given.old) }
    ensures upper_bound { (result ≤ top) × (top ≤ suc result) }
    ensures by_index { (k : ℕ) → suc k < top → get_or given.new k 0 ≡ get_or given.old k 0 }
{
    if !freed {
        return top;
    }
    let at = top - 1;
    given[at] = slot;
    at
}
