// A better numbering of rows and columns, by exchanges of neighbours that leave fewer slots. Document 02, A.12.
#![tactic(auto)]

ghost use Rattle.std.specs.Prelude.{◌≡◌, true, cond, suc, ◌*◌, ◌≤◌, ◌<◌, ltb, length, drop};
ghost use Rattle.model.specs.Label.{is_order};
ghost use Rattle.model.specs.Compile.{judged, good, orderly};
ghost use Rattle.model.specs.Numbering.{IsNumbering, given_numbering, renumbered, exchanged, tried, after_trials, trials_made};
ghost use Rattle.model.specs.Numbering.{renumbers, renumbered_work, numbering_after};
ghost use Rattle.slots.specs.Walked.{FillsPlan};
ghost use Rattle.labels.specs.Batches.{Holds};
ghost use Rattle.exchange.specs.Stood.{Neighbours};
ghost use Rattle.ordering.specs.Ordered.{ordered_of};
ghost use Rattle.ordering.specs.Numbered.{Numbered, Inverse, Ranged, Moved, MarksAnew};

use exchange::Trial;
use labels::Batch;
use numbers::wide;
use refusal::Refusal;
use slots::{Filled, Firsts};

// A numbering that was found: its slots, the trials made, and its distance, which is its slots less the plan's labels.
#[derive(Clone, Copy)]
pub struct Renumbered {
    pub slots: u32,
    pub trials: u32,
    pub distance: u32,
}

// The numbering that the trials keep: 1 to 5 of the plan, then 29 if the lent numbering has not n entries. The work numbers are then the slots of the
// returned numbering, after 29 those of the given one.
pub fn order(
    n: u32,
    plan: &[u32],
    trials: u32,
    work: &mut [u32],
    numbering: &mut [u32],
) -> Result<Renumbered, Refusal>
    ensures answer { ordered_of result ≡ renumbers n plan.now trials (length work.old) (length numbering.old) }
    ensures work { work.new ≡ renumbered_work n plan.now trials work.old (length numbering.old) }
    ensures numbering { numbering.new ≡ numbering_after n plan.now trials (length work.old) numbering.old }
{
    let mut firsts = Firsts::room();
    let filled = plans::slots(n, plan, work, &mut firsts, 1)?;
    if numbering.len() != wide(n) {
        return Err(Refusal::Numbering);
    }
    number_as_given(numbering);
    let made = trials_made(n, trials);
    let slots = make_trials(n, plan, made, work, &mut firsts, numbering, filled.slots);
    Ok(Renumbered {
        slots,
        trials: made,
        distance: slots - plan.len() as u32,
    })
}

// Order 1 has no neighbours to exchange.
fn trials_made(n: u32, trials: u32) -> u32
    ensures { result ≡ trials_made n trials }
{
    if n == 1 { 0 } else { trials }
}

// The given numbering: p(i) = i.
fn number_as_given(numbering: &mut [u32])
    requires { length numbering.old ≤ 600 }
    ensures { numbering.new ≡ given_numbering (length numbering.old) }
{
    for (k, room) in numbering.iter_mut().enumerate() {
        *room = k as u32 + 1;
    }
}

// So many trials from the given numbering, whose plan has these slots; the answer is the slots of the one that they keep.
// Kept: slices and tables as parameters: a struct that holds a `&mut` needs a clause for each in each contract (it is still the same): no plainer
fn make_trials(
    n: u32,
    plan: &[u32],
    trials: u32,
    work: &mut [u32],
    firsts: &mut Firsts,
    numbering: &mut [u32],
    mut slots: u32,
) -> u32
    requires numbering_value { (numbering.old ≡ given_numbering n) × Numbered n plan.now numbering.old work.old firsts.old.rows firsts.old.columns slots }
    requires lt_n { 0 < trials → 1 < n }
    ensures numbering_after { numbering.new ≡ after_trials n plan.now trials }
    ensures numbered { Numbered n plan.now numbering.new work.new firsts.new.rows firsts.new.columns result }
    ensures work_unchanged { drop (n * n) work.new ≡ drop (n * n) work.old }
{
    let mut idle = 0;
    // p(t) and p(t + 1) are exchanged where that leaves fewer slots, t = 1, .., n - 1 and round again. The last trials, idle of them, kept nothing;
    // once that is a whole round no later one keeps anything.
    for k in 0..trials {
        if idle == n - 1 {
            break;
        }
        let t = k % (n - 1) + 1;
        let after = try_exchange(n, plan, work, firsts, numbering, t, slots);
        idle = if after < slots { 0 } else { idle + 1 };
        slots = after;
    }
    slots
}

// One trial: the rooms at t and t + 1 are kept exchanged if the plan is still accepted and has fewer slots.
fn try_exchange(
    n: u32,
    plan: &[u32],
    work: &mut [u32],
    firsts: &mut Firsts,
    numbering: &mut [u32],
    t: u32,
    slots: u32,
) -> u32
    requires numbered { Numbered n plan.now numbering.old work.old firsts.old.rows firsts.old.columns slots }
    requires neighbours { Neighbours n t }
    ensures numbering_after { numbering.new ≡ tried n plan.now t numbering.old }
    ensures numbered_2 { Numbered n plan.now numbering.new work.new firsts.new.rows firsts.new.columns result }
    ensures work_unchanged { drop (n * n) work.new ≡ drop (n * n) work.old }
{
    let trial = Trial {
        n,
        plan,
        numbering,
        work,
        firsts,
        t,
    };
    if !trial.improves() {
        return slots;
    }
    numbering.swap(wide(t) - 1, wide(t));
    fill_anew(n, plan, numbering, work, firsts).slots
}

// The slots of the plan under a numbering, in the work numbers.
fn fill_anew(
    n: u32,
    plan: &[u32],
    numbering: &[u32],
    work: &mut [u32],
    firsts: &mut Firsts,
) -> Filled
    requires n_value { (is_order n ≡ true) × (judged n 0 1 plan.now ≡ good) }
    requires numbering { IsNumbering n numbering.now × (n * n ≤ length work.old) }
    ensures { FillsPlan n (renumbered n plan.now numbering.now) work.old
        work.new firsts.new.rows firsts.new.columns result }
{
    mark(n, plan, numbering, work);
    slots::fill(n, work, firsts)
}

// Marks the plan under a numbering: the work number of (i, j) becomes 1 where (p(i), p(j)) is in the plan, else 0.
fn mark(n: u32, plan: &[u32], numbering: &[u32], work: &mut [u32])
    requires n_value { (is_order n ≡ true) × (judged n 0 1 plan.now ≡ good) }
    requires numbering { IsNumbering n numbering.now × (n * n ≤ length work.old) }
    ensures { MarksAnew n (renumbered n plan.now numbering.now) work.old work.new }
{
    let mut positions = [0u32; 601];
    invert(numbering, &mut positions);
    slots::clear(work, wide(n * n));
    let mut batch = Batch::FIRST;
    for &label in plan {
        batch = labels::batch_of(n, label, batch);
        let index = moved(n, label, batch, &positions);
        work[index] = 1;
    }
}

// The position of each room: positions(p(i)) = i.
fn invert(numbering: &[u32], positions: &mut [u32])
    requires { IsNumbering (length numbering.now) numbering.now × (length numbering.now ≤ 600) × (length positions.old ≡ 601) }
    ensures { Inverse numbering.now (length numbering.now) positions.new }
{
    for (k, &room) in numbering.iter().enumerate() {
        positions[wide(room)] = k as u32 + 1;
    }
}

// The index of the work number that a label of this batch goes to.
fn moved(n: u32, x: u32, batch: Batch, positions: &[u32]) -> usize
    requires n_bound { (n ≤ 600) × Holds n x batch }
    requires positions_len { (length positions.now ≡ 601) × Ranged n positions.now }
    ensures { Moved n x positions.now result }
{
    let place = labels::place_in(n, x, batch);
    let i = positions[wide(place.row)];
    let j = positions[wide(place.column)];
    wide(labels::label(n, i, j) - 1)
}
