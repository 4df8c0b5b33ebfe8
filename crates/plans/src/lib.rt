// A plan's checks 1 to 5 and its slots, for every call that takes a plan: document 01, "Fill and slots" and "Where each refusal is checked".
#![tactic(auto)]

ghost use Rattle.std.specs.Prelude.{◌≡◌, ◌*◌, ◌≤◌, length, true, MatchResult};
ghost use Rattle.model.specs.Label.{is_order};
ghost use Rattle.model.specs.Compile.{judged, good, orderly};
ghost use Rattle.model.specs.Fill.{in_plan};
ghost use Rattle.model.proofs.Labels.{Inside};
ghost use Rattle.slots.specs.Walked.{FillsPlan};
ghost use Rattle.refusal.specs.Named.{labels_of};
ghost use Rattle.plans.specs.Slotted.{Slotted, Refuses};
ghost use Rattle.plans.specs.Stands.{Sought, Smallest};

use numbers::{wide, within};
use refusal::Refusal;
use slots::{Filled, Firsts};

// 1 to 4, of a call that wants so many work numbers for each place of the table and is lent so many.
pub fn check(n: u32, plan: &[u32], work: usize, each: u32) -> Result<(), Refusal>
    requires { each ≤ 4 }
    ensures { labels_of result ≡ orderly (each * (n * n)) n plan.now work }
{
    if !within(n, 600) {
        return Err(Refusal::Order);
    }
    let wanted = each * (n * n);
    if work < wide(wanted) {
        return Err(Refusal::WorkShort {
            wanted: u64::from(wanted),
        });
    }
    judge(n, plan)
}

// Each label lies in 1..n² (3) and above the one before (4); the first bad one's position is counted from 1.
fn judge(n: u32, plan: &[u32]) -> Result<(), Refusal>
    requires { n ≤ 600 }
    ensures { labels_of result ≡ judged n 0 1 plan.now }
{
    let top = n * n;
    let mut before = 0;
    for (k, &label) in plan.iter().enumerate() {
        let position = k as u64 + 1;
        if !within(label, top) {
            return Err(Refusal::LabelRange { position });
        }
        if label <= before {
            return Err(Refusal::LabelTurn { position });
        }
        before = label;
    }
    Ok(())
}

// The slots of a plan that 1 to 4 let through, in the work numbers, whether a pivot is missing or not.
pub fn fill(n: u32, plan: &[u32], work: &mut [u32], firsts: &mut Firsts) -> Filled
    requires n_value { (is_order n ≡ true) × (judged n 0 1 plan.now ≡ good) }
    requires n_in_bounds { n * n ≤ length work.old }
    ensures { FillsPlan n plan.now work.old work.new firsts.new.rows firsts.new.columns result }
{
    slots::mark(n, plan, work);
    slots::fill(n, work, firsts)
}

// 1 to 5 of a call that wants so many work numbers for each place of the table, and the slots in them. If a pivot is missing (5), all that the call
// wants are 0.
pub fn slots(
    n: u32,
    plan: &[u32],
    work: &mut [u32],
    firsts: &mut Firsts,
    each: u32,
) -> Result<Filled, Refusal>
    requires le_each { (1 ≤ each) × (each ≤ 4) }
    ensures { MatchResult result
        (λ filled. Slotted each n plan.now work.old work.new firsts.new.rows firsts.new.columns filled)
        (λ refusal. Refuses each n plan.now work.old work.new refusal) }
{
    check(n, plan, work.len(), each)?;
    let filled = fill(n, plan, work, firsts);
    let missing = filled.missing;
    if missing != 0 {
        slots::clear(work, wide(each * (n * n)));
        return Err(Refusal::PivotMissing {
            pivot: u64::from(missing),
        });
    }
    Ok(filled)
}

// The smallest h for which (i, h) and (h, j) are held, where a plan's slots stand in the work numbers. There is one, since (i, j) is held and not in
// the plan.
pub fn between(n: u32, work: &[u32], firsts: &Firsts, i: u32, j: u32) -> u32
    requires { Sought n work.now firsts.now.rows firsts.now.columns i j }
    ensures { Smallest n work.now firsts.now.rows firsts.now.columns i j result }
{
    let first = firsts.pair_from(i, j).max(1);
    let mut low = wide(labels::label(n, i, first) - 1);
    let mut high = wide(labels::label(n, first, j) - 1);
    // h = min { h : held(i, h) and held(h, j) }; low and high are the labels of (i, h) and (h, j), less 1
    for h in first..n {
        if slots::both_used(work, low, high) {
            return h;
        }
        let left = wide(n - h);
        low += left + left;
        high += left + left - 1;
    }
    unreachable!()
}

// Whether (i, j) is in the plan: its labels rise.
pub fn is_planned(n: u32, plan: &[u32], i: u32, j: u32) -> bool
    requires n_bound { (n ≤ 600) × (judged n 0 1 plan.now ≡ good) }
    requires inside { Inside n i j }
    ensures { result ≡ in_plan n plan.now i j }
{
    plan.binary_search(&labels::label(n, i, j)).is_ok()
}
