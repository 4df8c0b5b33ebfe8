// The slot pass: a plan's labels marked in the work numbers, and these marks turned into slots in place. Document 01, "Fill and slots".
#![tactic(auto)]

pub mod lines;

ghost use Rattle.std.specs.Prelude.{◌≡◌, true, false, cond, ◌&&◌, ◌++◌, suc, ◌+◌, ◌-◌, ◌*◌, ◌≤◌, ◌<◌, min, max, ltb, eqb, length, get_or, set, drop, replicate};
ghost use Rattle.model.specs.Label.{is_order};
ghost use Rattle.model.specs.Label;
ghost use Rattle.model.specs.Compile.{judged, good};
ghost use Rattle.model.proofs.Labels.{Inside};
ghost use Rattle.slots.specs.Marks.{Marked};
ghost use Rattle.slots.specs.Walked.{Sized, Standing, Lined, EmptyRun, Settled, Fills};
ghost use Rattle.slots.specs.Batch.{first_of, empty_at};
ghost use Rattle.slots.specs.Unnoted.{Unnoted};

use lines::{column_of, first_of, row_of};
use numbers::wide;

// How far the places are walked: those done, and the slots given.
#[derive(Clone, Copy)]
pub struct Walk {
    pub done: u32,
    pub used: u32,
}

// The slots, the products, the held places above the diagonal, and the first pivot that is missing, 0 if none is.
// Kept: 0 for none, as the definition missing has it, and crout_count_plans counts accepted plans at index 0 of its array.
#[derive(Clone, Copy)]
pub struct Filled {
    pub slots: u32,
    pub products: u32,
    pub above: u32,
    pub missing: u32,
}

// The first held column of each row, and the first held row of each column, 601 where none is noted. Index 0 is not used.
// Kept: 601 for none: min notes a place and max asks for a pair, with no match; an Option would need one at each, no plainer.
#[derive(Drop)]
pub struct Firsts {
    pub rows: [u32; 601],
    pub columns: [u32; 601],
}

impl Firsts {
    // Room for them, all zeros; `fill` clears it where it stands. If it were cleared in here, it would be copied into the caller's.
    #[inline(always)]
    pub fn room() -> Firsts
        ensures { (result.rows ≡ replicate 601 0) × (result.columns ≡ replicate 601 0) }
    {
        Firsts {
            rows: [0; 601],
            columns: [0; 601],
        }
    }

    // Nothing is noted any more.
    #[inline(always)]
    pub fn clear(&mut self)
        ensures { Unnoted self.new }
    {
        self.rows.fill(601);
        self.columns.fill(601);
    }

    // Place (i, j) is held.
    fn note(&mut self, i: u32, j: u32)
        requires { (i ≤ 600) × (j ≤ 600) }
        ensures row { self.new.rows ≡ set self.old.rows i (min j (get_or self.old.rows i 0)) }
        ensures column { self.new.columns ≡ set self.old.columns j (min i (get_or self.old.columns j 0)) }
    {
        let row = wide(i);
        let column = wide(j);
        self.rows[row] = self.rows[row].min(j);
        self.columns[column] = self.columns[column].min(i);
    }

    // The first h that can give place (i, j) a pair: where both its lines can first be held.
    #[inline(always)]
    pub fn pair_from(&self, i: u32, j: u32) -> u32
        requires { (i ≤ 600) × (j ≤ 600) }
        ensures { result ≡ max (get_or self.now.rows i 0) (get_or self.now.columns j 0) }
    {
        self.rows[wide(i)].max(self.columns[wide(j)])
    }
}

// Marks a plan: work number K becomes the position of label K in the plan, 0 where it isn't there.
pub fn mark(n: u32, plan: &[u32], work: &mut [u32])
    requires n_value { is_order n ≡ true }
    requires plan_value { judged n 0 1 plan.now ≡ good }
    requires n_in_bounds { n * n ≤ length work.old }
    ensures { Marked n plan.now work.old work.new }
{
    clear(work, wide(n * n));
    for (k, &label) in plan.iter().enumerate() {
        work[wide(label - 1)] = k as u32 + 1;
    }
}

// The first count work numbers become 0.
pub fn clear(work: &mut [u32], count: usize)
    requires { count ≤ length work.old }
    ensures { work.new ≡ replicate count 0 ++ drop count work.old }
{
    work[..count].fill(0);
}

// Each work number, a mark, becomes its place's slot, 0 where the place isn't held. What was noted before is cleared.
pub fn fill(n: u32, work: &mut [u32], firsts: &mut Firsts) -> Filled
    requires n_value { is_order n ≡ true }
    requires n_in_bounds { n * n ≤ length work.old }
    ensures { Fills n work.old work.new firsts.new.rows firsts.new.columns result }
{
    firsts.clear();
    let mut walk = Walk { done: 0, used: 0 };
    let mut products = 0;
    let mut above = 0;
    let mut missing = 0;
    for m in 1..=n {
        let pivot = wide(walk.done);
        let start = walk.used;
        walk = fill_line(n, work, firsts, m, false, walk);
        let middle = walk.used;
        let slot = work[pivot];
        walk = fill_line(n, work, firsts, m, true, walk);
        let down = middle - start.max(slot);
        let right = walk.used - middle;
        products += batch_products(down, right);
        above += right;
        missing = first_missing(missing, m, slot);
    }
    Filled {
        slots: walk.used,
        products,
        above,
        missing,
    }
}

// The products of a batch with so many held places below and right of its pivot: one for each two of them, y's and x's.
fn batch_products(down: u32, right: u32) -> u32
    requires { (down ≤ 600) × (right ≤ 600) }
    ensures { result ≡ down * right + down + right }
{
    down * right + down + right
}

// The first missing pivot once pivot m has this slot.
// Kept: 0 for none, as Filled has it.
fn first_missing(missing: u32, m: u32, slot: u32) -> u32
    ensures { result ≡ cond (eqb slot 0 && eqb missing 0) m missing }
{
    if slot == 0 && missing == 0 {
        m
    } else {
        missing
    }
}

// Batch m's column from the diagonal down or, across, its row right of the diagonal, from the marks.
// Kept: across as a bool, as row_of and column_of take it.
fn fill_line(
    n: u32,
    work: &mut [u32],
    firsts: &mut Firsts,
    m: u32,
    across: bool,
    mut walk: Walk,
) -> Walk
    requires sized { Sized n work.old × (1 ≤ m) × (m ≤ n) }
    requires standing { Standing n across m (first_of across m) walk work.old firsts.old.rows firsts.old.columns }
    ensures { Lined n across m walk result work.old firsts.old.rows firsts.old.columns
        work.new firsts.new.rows firsts.new.columns }
{
    let mut t = first_of(across, m);
    // By hand: t passes over the run of places that can't be held, whose length a turn finds; a `for` has no such step.
    while t <= n {
        let i = row_of(across, m, t);
        let j = column_of(across, m, t);
        let planned = is_marked(work, walk.done);
        let mut h = search_from(firsts, i, j, m, planned);
        let (mut low, mut high) = if h < m {
            (index_of(n, i, h), index_of(n, h, j))
        } else {
            (0, 0)
        };
        // held(i, j) = planned, or held(i, h) and held(h, j) for some h < m; the first such h ends the search
        // Kept: document 01 asks for this loop: a search nested over h, left by a break (docs/SCOPE.md; tests/forms.sh looks for it here).
        let held = loop {
            if m <= h {
                break planned;
            }
            if both_used(work, low, high) {
                break true;
            }
            let left = wide(n - h);
            low += left + left;
            high += left + left - 1;
            h += 1;
        };
        walk = settle(work, firsts, i, j, held, walk);
        // the places after it that can't be held keep their 0
        let empty = empty_run(n, work, firsts, m, across, t + 1, walk.done);
        walk.done += empty;
        t += empty + 1;
    }
    walk
}

// Whether the place after the first done is marked.
fn is_marked(work: &[u32], done: u32) -> bool
    requires { done < length work.now }
    ensures { result ≡ ltb 0 (get_or work.now done 0) }
{
    0 < work[wide(done)]
}

// The first h that can give place (i, j) a pair. None is sought for a place in the plan.
fn search_from(firsts: &Firsts, i: u32, j: u32, m: u32, planned: bool) -> u32
    requires { (i ≤ 600) × (j ≤ 600) }
    ensures { result ≡ cond planned m (max (get_or firsts.now.rows i 0) (get_or firsts.now.columns j 0)) }
{
    if planned { m } else { firsts.pair_from(i, j) }
}

// The index of place (i, j) in the work slice.
fn index_of(n: u32, i: u32, j: u32) -> usize
    requires { (n ≤ 600) × Inside n i j }
    ensures { suc result ≡ Label.label n i j }
{
    wide(labels::label(n, i, j) - 1)
}

// Whether both work numbers are slots.
pub fn both_used(work: &[u32], low: usize, high: usize) -> bool
    requires { (low < length work.now) × (high < length work.now) }
    ensures { result ≡ (ltb 0 (get_or work.now low 0) && ltb 0 (get_or work.now high 0)) }
{
    0 < work[low] && 0 < work[high]
}

// The next place takes the next slot, and its row and column note it, if it is held; its work number is 0 already if it isn't.
fn settle(work: &mut [u32], firsts: &mut Firsts, i: u32, j: u32, held: bool, mut walk: Walk) -> Walk
    requires done_bound { (walk.done < 400000) × (walk.done < length work.old) × (walk.used < 400000) }
    requires i_in_bounds { (i ≤ 600) × (j ≤ 600) }
    ensures { Settled i j held walk result work.old firsts.old.rows firsts.old.columns
        work.new firsts.new.rows firsts.new.columns }
{
    if held {
        walk.used += 1;
        work[wide(walk.done)] = walk.used;
        firsts.note(i, j);
    }
    walk.done += 1;
    walk
}

// How many of a line's places from the t-th on, whose work numbers follow the first done, are not in the plan and can have no pair, before one
// that may be held: its other line, a row on a column, notes nothing before batch m.
fn empty_run(n: u32, work: &[u32], firsts: &Firsts, m: u32, across: bool, t: u32, done: u32) -> u32
    requires { (t ≤ suc n) × (n ≤ 600) × (done + (suc n - t) ≤ length work.now) }
    ensures run { EmptyRun n across m t done work.now firsts.now.rows firsts.now.columns result }
    ensures stops { empty_at n across m work.now firsts.now.rows firsts.now.columns (t + result) (done + result) ≡ false }
{
    let noted = if across {
        &firsts.columns
    } else {
        &firsts.rows
    };
    // Kept: zip, take_while and count were tried, and proved: costs_most on a sparse plan of order 600 took 0.53 ms in place of 0.30.
    for k in t..=n {
        if work[wide(done) + wide(k - t)] != 0 || noted[wide(k)] < m {
            return k - t;
        }
    }
    n + 1 - t
}
