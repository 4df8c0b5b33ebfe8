// A program's words, or a file's bytes, against checks 7 to 13: document 01, "Where each refusal is checked"; document 02, A.6, A.7
// and A.11. One pass, no memory.
#![tactic(auto)]

mod records;

ghost use Rattle.std.specs.Prelude.{◌≡◌, ◌&&◌, ◌+◌, ◌*◌, ◌≤◌, ◌<◌, ltb, length};
ghost use Rattle.model.specs.Check.{word, whole, at_end, fine};
ghost use Rattle.model.specs.Check.{check_from};
ghost use Rattle.model.specs.Check;
ghost use Rattle.model.specs.File.{words_of, check_file};
ghost use Rattle.progress.specs.Steps.{progress_of, total, refusal_of};
ghost use Rattle.refusal.specs.Named.{verdict_of};
ghost use Rattle.model.proofs.Passing.{eight};
ghost use Rattle.checker.specs.Whole.{count_fits, unless, followed};

use numbers::{wide, within};
use progress::{Fault, Head, Progress, Record};
use records::{Filed, Records};
use refusal::Refusal;

// Checks 7 to 13 of a program.
#[tactic(auto, unfolding(model::specs::Check::check))]
pub fn check(words: &[u32]) -> Result<(), Refusal>
    ensures { verdict_of result ≡ Check.check words.now }
{
    check_records(&words, 0)
}

// The same of a call that takes Crout programs only: 8 refuses s = 0.
pub fn check_crout(words: &[u32]) -> Result<(), Refusal>
    ensures { verdict_of result ≡ check_from 1 words.now }
{
    check_records(&words, 1)
}

// Check 18 of a file, then 7 to 13 of the program in it.
pub fn check_file(bytes: &[u8]) -> Result<(), Refusal>
    ensures { verdict_of result ≡ check_file bytes.now }
{
    if bytes.len() % 4 != 0 {
        return Err(Refusal::FileBytes);
    }
    check_records(&Filed { bytes }, 0)
}

// 7, then 8, with s at least so much, then the chain.
fn check_records<R: Records>(program: &R, least: u32) -> Result<(), Refusal>
    ensures { verdict_of result ≡ check_from least (R.words program.now) }
{
    let count = program.count();
    if !count_fits(count) {
        return Err(Refusal::WordCount);
    }
    let h = head_of(program.record(0));
    if !head_fits(h, least) {
        return Err(Refusal::Head);
    }
    follow(program, h, count / 4)
}

// 7: there are words, in fours, and at most 100,000,000 records.
fn count_fits(count: usize) -> bool
    ensures { result ≡ count_fits count }
{
    0 < count && (count % 4 == 0 && count / 4 <= 100_000_000)
}

// Record 0 as N, n and s.
fn head_of(r: Record) -> Head
    ensures { result ≡ record { order = r.kind; coefficients = r.p; slots = r.q } }
{
    Head {
        order: r.kind,
        coefficients: r.p,
        slots: r.q,
    }
}

// 8: N in 1..600, n and s at most N²; s is 0 in a sweep (A.7), or at least so much.
fn head_fits(h: Head, least: u32) -> bool
    ensures { result ≡ eight least h.order h.coefficients h.slots }
{
    let n = h.order;
    within(n, 600) && (h.coefficients <= n * n && (least <= h.slots && h.slots <= n * n))
}

// The records along the chain, and its end: record k names next. In the inner loop next is the record that follows, so that it is read
// without waiting for the index that names it: `following` stands before that index is read.
fn follow<R: Records>(program: &R, h: Head, count: usize) -> Result<(), Refusal>
    requires { (0 < count) × ((count ≤ 100000000) × (4 * count ≡ length (R.words program.now))) }
    ensures { verdict_of result ≡ followed h (R.words program.now) }
{
    let mut g = progress::begun();
    let mut k = 0;
    let mut next = wide(program.record(0).next);
    // By hand: each record names the next one, so that no range tells the turns beforehand.
    loop {
        if next == 0 {
            return at_end(h, g);
        }
        if !may_follow(next, k, count) {
            return Err(Refusal::Next { record: k as u64 });
        }
        loop {
            let r = program.record(next);
            let following = next + 1;
            if !progress::is_right(h, g, r) {
                return judged(h, g, r, next);
            }
            progress::onward(r, &mut g);
            k = next;
            next = wide(r.next);
            if count <= following || next != following {
                break;
            }
            next = following;
        }
    }
}

// 9: a next index is above its own record's, and below the record count.
fn may_follow(next: usize, k: usize, count: usize) -> bool
    ensures { result ≡ (ltb k next && ltb next count) }
{
    k < next && next < count
}

// 13 at the end of a chain.
fn at_end(h: Head, g: Progress) -> Result<(), Refusal>
    ensures { verdict_of result ≡ at_end h.order h.slots (progress_of g) whole }
{
    if progress::complete(h, g) {
        Ok(())
    } else {
        Err(Refusal::Unfinished)
    }
}

// 10 to 12 of record k, with its index.
fn judged(h: Head, g: Progress, r: Record, k: usize) -> Result<(), Refusal>
    requires { total (progress_of g) ≤ 100000000 }
    ensures { verdict_of result ≡ unless (refusal_of h g r.kind r.p r.q) k fine }
{
    let record = k as u64;
    progress::judge(h, g, r).map_err(|fault| match fault {
        Fault::Kind => Refusal::Kind { record },
        Fault::Open => Refusal::Open { record },
        Fault::Operand => Refusal::Operand { record },
    })
}
