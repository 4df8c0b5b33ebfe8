// Why a place is held: a path through places of the plan. Document 02, A.2.
#![tactic(auto)]

ghost use Rattle.std.specs.Prelude.{◌≡◌, ◌&&◌, ◌-◌, ◌*◌, ◌≤◌, ◌<◌, ltb, length, get_or, take};
ghost use Rattle.model.specs.Label.{is_place};
ghost use Rattle.model.specs.Label;
ghost use Rattle.model.specs.Path.{Traces, work_traced, Shown};
ghost use Rattle.model.specs.Route.{route};
ghost use Rattle.paths.specs.Traced.{traced_of};
ghost use Rattle.plans.specs.Stands.{Stands, Leads};

use numbers::wide;
use refusal::Refusal;
use slots::Firsts;

// A path of place (i, j) in the list, and the number of its entries: 1 to 4 of the plan, then 22 if the place isn't held or lies outside the table,
// then 23 if the list has fewer than n + 1 entries. After 22, 23 and success the work numbers are the slots, also where a pivot is missing.
pub fn fill_path(
    n: u32,
    plan: &[u32],
    i: u32,
    j: u32,
    work: &mut [u32],
    list: &mut [u32],
) -> Result<u32, Refusal>
    ensures answer { Traces n plan.now i j (length work.old) list.old (traced_of result) list.new }
    ensures work { work.new ≡ work_traced n plan.now work.old }
{
    plans::check(n, plan, work.len(), 1)?;
    let mut firsts = Firsts::room();
    plans::fill(n, plan, work, &mut firsts);
    if !is_held(n, work, i, j) {
        return Err(Refusal::NotHeld);
    }
    if list.len() <= wide(n) {
        return Err(Refusal::ListShort);
    }
    Ok(trace(n, plan, work, &firsts, i, j, list))
}

// Whether (i, j) is a place of the table and is held.
fn is_held(n: u32, work: &[u32], i: u32, j: u32) -> bool
    requires { n * n ≤ length work.now }
    ensures { result ≡ (is_place n i j && ltb 0 (get_or work.now (Label.label n i j - 1) 0)) }
{
    let k = labels::label(n, i, j);
    0 < k && 0 < work[wide(k - 1)]
}

// The path by the smallest h: from i to the nearest entry that has to be reached, straight if that is a place of the plan, else first to the smallest
// h for which the places on either side are held.
fn trace(
    n: u32,
    plan: &[u32],
    work: &[u32],
    firsts: &Firsts,
    i: u32,
    j: u32,
    list: &mut [u32],
) -> u32
    requires stands { Stands n plan.now work.now firsts.now.rows firsts.now.columns }
    requires leads { Leads n plan.now i j }
    requires n_in_bounds { n < length list.old }
    ensures shown { Shown n plan.now i j result list.old list.new }
    ensures smallest { take result list.new ≡ route n plan.now i j }
{
    let mut stack = [0u32; 601];
    stack[600] = j;
    list[0] = i;
    let mut last = i;
    let mut count = 1usize;
    let mut next = 600;
    // leg(a, b) = b if (a, b) is in the plan, else leg(a, h), leg(h, b); the path is i, leg(i, j)
    // By hand: no heap. The entries that the path still has to reach stand in a fixed stack from next on, the nearest first, and next goes both ways.
    while next < 601 {
        let to = stack[next];
        if plans::is_planned(n, plan, last, to) {
            list[count] = to;
            last = to;
            count += 1;
            next += 1;
        } else {
            next -= 1;
            stack[next] = plans::between(n, work, firsts, last, to);
        }
    }
    count as u32
}
