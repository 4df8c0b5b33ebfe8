// Programs edited by hand: whether a program is the one compiled for a plan, but for unused records between its own. Document 02, A.10.
#![tactic(auto)]

ghost use Rattle.std.specs.Prelude.{◌≡◌, [], IfOk, length, suc, ◌+◌, ◌*◌, ◌≤◌, ◌<◌};
ghost use Rattle.model.specs.Check.{record_at, chain};
ghost use Rattle.model.specs.Compare.{same_record, compares, work_compared};
ghost use Rattle.model.specs.Compare;
ghost use Rattle.model.proofs.Labels.{Inside};
ghost use Rattle.slots.specs.Batch.{row_of, column_of, first_of};
ghost use Rattle.writer.specs.Line.{Before, divisor_of, line_records, batch_at, batch_records, solution_records, plan_records};
ghost use Rattle.refusal.specs.Named.{verdict_of};
ghost use Rattle.copies.specs.Beside.{OnChain, told, Leads, cursor_of};
ghost use Rattle.copies.specs.Beside;
ghost use Rattle.copies.specs.Compared.{first_records, head_is, SlotsStand, Compares};

use numbers::wide;
use refusal::Refusal;
use slots::Firsts;
use slots::lines::{column_of, first_of, row_of, zeros};
use writer::slotted::Slotted;
use writer::{Cursor, write_backward, write_forward, write_next};

// How far a program is compared, and is the compiler's: the places done, the plan's labels among them, and the last chained record compared, 0
// before the first.
// Kept: OnChain is no ghost field here, since it is of the words too; a borrow of them in each Compared is no plainer.
#[derive(Clone, Copy)]
pub struct Compared {
    pub done: u32,
    pub passed: u32,
    pub last: usize,
}

// 1 to 5 of a plan, then 7 to 13 of a program, then 28: N, n, s and the chain's kinds and operands are the compiler's for the plan. After 7 to
// 13, 28 and success the work numbers are the plan's slots, as the compiler leaves them.
pub fn compare(n: u32, plan: &[u32], work: &mut [u32], words: &[u32]) -> Result<(), Refusal>
    ensures answer { verdict_of result ≡ compares n plan.now (length work.old) words.now }
    ensures work { work.new ≡ work_compared n plan.now work.old }
{
    let mut firsts = Firsts::room();
    let filled = plans::slots(n, plan, work, &mut firsts, 1)?;
    compare_program(n, plan, work, &firsts, words, filled.slots)
}

// The same once the slots stand in the work numbers.
fn compare_program(
    n: u32,
    plan: &[u32],
    work: &[u32],
    firsts: &Firsts,
    words: &[u32],
    slots: u32,
) -> Result<(), Refusal>
    requires { SlotsStand n plan.now work.now firsts.now.rows firsts.now.columns slots }
    ensures { Compares n plan.now words.now (verdict_of result) }
{
    checker::check(words)?;
    if !head_is(words, n, plan.len(), slots) {
        return Err(Refusal::Different { record: 0 });
    }
    let slotted = Slotted {
        n,
        plan,
        work,
        rows: &firsts.rows,
        columns: &firsts.columns,
    };
    compare_records(&slotted, words)
}

// Whether record 0 is N, n and s.
fn head_is(words: &[u32], n: u32, labels: usize, slots: u32) -> bool
    requires { 2 < length words.now }
    ensures { result ≡ head_is words.now n labels slots }
{
    words[0] == n && (wide(words[1]) == labels && words[2] == slots)
}

// 28 along the chain, beside the records of each formula in turn: these stand one after another in `formula`, which has room for the
// longest.
// Kept: one walk for this and for writer is no plainer: a trait for what is done with a formula would have Wrote and Leads for laws.
fn compare_records(slotted: &Slotted, words: &[u32]) -> Result<(), Refusal>
    requires on_chain { OnChain words.now 0 }
    ensures { verdict_of result ≡ Compare.compared 0 (plan_records slotted.now.n slotted.now.plan.now slotted.now.work.now)
        (chain words.now).links }
{
    let mut formula = [0u32; 2412];
    let batches = compare_batches(slotted, words, &mut formula)?;
    let solution = compare_solution(slotted, words, &mut formula, batches)?;
    at_end(words, solution)
}

// The batches, in order.
fn compare_batches(
    slotted: &Slotted,
    words: &[u32],
    formula: &mut [u32],
) -> Result<Compared, Refusal>
    requires on_chain { OnChain words.now 0 }
    requires formula_len { length formula.old ≡ 2412 }
    ensures on_chain_2 { IfOk result (λ z. OnChain words.now z.last) }
    ensures leads { Leads words.now (batch_records slotted.now.n slotted.now.plan.now slotted.now.work.now) Beside.begun result }
{
    let mut z = Compared {
        done: 0,
        passed: 0,
        last: 0,
    };
    for m in 1..=slotted.n {
        z = compare_batch(slotted, words, formula, m, z)?;
    }
    Ok(z)
}

// Batch m: its column, y(m), and its row.
fn compare_batch(
    slotted: &Slotted,
    words: &[u32],
    formula: &mut [u32],
    m: u32,
    z: Compared,
) -> Result<Compared, Refusal>
    requires inside { Inside slotted.now.n m m }
    requires before { Before slotted.now.n slotted.now.plan.now m m (cursor_of z) }
    requires on_chain { OnChain words.now z.last }
    requires formula_len { length formula.old ≡ 2412 }
    ensures on_chain_2 { IfOk result (λ z'. OnChain words.now z'.last) }
    ensures leads { Leads words.now (batch_at slotted.now.n slotted.now.plan.now slotted.now.work.now m) z result }
    ensures before_2 { IfOk result (λ z'. Before slotted.now.n slotted.now.plan.now (suc m) (suc m) (cursor_of z')) }
{
    let done = z.done;
    let pivot = slotted.work[wide(done)];
    let column = compare_line(slotted, words, formula, m, false, 0, z)?;
    let count = write_forward(
        slotted.n,
        slotted.work,
        formula,
        0,
        m,
        pivot,
        slotted.rows[wide(m)],
    );
    let forward = compare_formula(words, formula, count, column)?;
    compare_line(slotted, words, formula, m, true, pivot, forward)
}

// Batch m's column from the diagonal down or, across, its row right of the diagonal; a row's formulas are divided by the pivot.
// Kept: across as a bool, as row_of and column_of take it.
fn compare_line(
    slotted: &Slotted,
    words: &[u32],
    formula: &mut [u32],
    m: u32,
    across: bool,
    divisor: u32,
    z: Compared,
) -> Result<Compared, Refusal>
    requires inside { Inside slotted.now.n m m }
    requires divisor_value { divisor ≡ divisor_of slotted.now.n slotted.now.work.now across m }
    requires before { Before slotted.now.n slotted.now.plan.now (row_of across m (first_of across m)) (column_of across m (first_of across m)) (cursor_of z) }
    requires on_chain { OnChain words.now z.last }
    requires formula_len { length formula.old ≡ 2412 }
    ensures on_chain_2 { IfOk result (λ z'. OnChain words.now z'.last) }
    ensures leads { Leads words.now (line_records slotted.now.n slotted.now.plan.now slotted.now.work.now across m) z result }
    ensures before_2 { IfOk result (λ z'. Before slotted.now.n slotted.now.plan.now (row_of across m (suc slotted.now.n)) (column_of across m (suc slotted.now.n)) (cursor_of z')) }
{
    let mut z = z;
    let mut t = first_of(across, m);
    // By hand: t passes over the run of places that are not held, whose length a turn finds; a `for` has no such step.
    while t <= slotted.n {
        let next = Cursor {
            next: 0,
            done: z.done,
            passed: z.passed,
        };
        let i = row_of(across, m, t);
        let j = column_of(across, m, t);
        let at = write_next(slotted, formula, i, j, divisor, next);
        let empty = zeros(slotted.work, wide(at.done), slotted.n - t);
        let reached = Compared {
            done: at.done + empty,
            passed: at.passed,
            last: z.last,
        };
        z = compare_formula(words, formula, at.next, reached)?;
        t += empty + 1;
    }
    Ok(z)
}

// x(i) for i = n..1.
fn compare_solution(
    slotted: &Slotted,
    words: &[u32],
    formula: &mut [u32],
    z: Compared,
) -> Result<Compared, Refusal>
    requires on_chain { OnChain words.now z.last }
    requires formula_len { length formula.old ≡ 2412 }
    ensures on_chain_2 { IfOk result (λ z'. OnChain words.now z'.last) }
    ensures leads { Leads words.now (solution_records slotted.now.n slotted.now.work.now) z result }
{
    let mut z = z;
    for i in (1..=slotted.n).rev() {
        let count = write_backward(slotted.n, slotted.work, formula, 0, i);
        z = compare_formula(words, formula, count, z)?;
    }
    Ok(z)
}

// The chain beside the first count records of a formula. 28 names the first that differs, or the last one if the chain is too short.
fn compare_formula(
    words: &[u32],
    formula: &[u32],
    count: u32,
    z: Compared,
) -> Result<Compared, Refusal>
    requires on_chain { OnChain words.now z.last }
    requires count_in_bounds { (4 * count ≤ length formula.now) × (count ≤ 603) }
    ensures on_chain_2 { IfOk result (λ z'. OnChain words.now z'.last) }
    ensures leads { Leads words.now (first_records formula.now count) z result }
    ensures done_value { IfOk result (λ z'. (z'.done ≡ z.done) × (z'.passed ≡ z.passed)) }
{
    let mut last = z.last;
    for i in 0..wide(count) {
        let k = wide(words[4 * last + 3]);
        if k == 0 {
            return Err(Refusal::Different {
                record: last as u64,
            });
        }
        if !is_same(words, k, formula, i) {
            return Err(Refusal::Different { record: k as u64 });
        }
        last = k;
    }
    Ok(Compared { last, ..z })
}

// Whether record k of a program has the kind and the operands of record i of a formula.
#[tactic(auto, unfolding(model::specs::Compare::same_record))]
fn is_same(words: &[u32], k: usize, formula: &[u32], i: usize) -> bool
    requires { (4 * k + 3 < length words.now) × (4 * i + 3 < length formula.now) }
    ensures { result ≡ same_record (record_at formula.now i) (record_at words.now k) }
{
    let at = 4 * k;
    let own = 4 * i;
    formula[own] == words[at]
        && (formula[own + 1] == words[at + 1] && formula[own + 2] == words[at + 2])
}

// No record may come after the compiler's last.
fn at_end(words: &[u32], z: Compared) -> Result<(), Refusal>
    requires { OnChain words.now z.last }
    ensures { verdict_of result ≡ told words.now z [] }
{
    let last = z.last;
    let next = words[4 * last + 3];
    if next != 0 {
        return Err(Refusal::Different {
            record: next as u64,
        });
    }
    Ok(())
}
