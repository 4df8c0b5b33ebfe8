// How many plans of an order are accepted, and how many are refused for each missing pivot. Document 02, A.13.
#![tactic(auto)]

ghost use Rattle.std.specs.Prelude.{true, ◌≡◌, ◌*◌, ◌^◌, ◌≤◌, length, replicate};
ghost use Rattle.model.specs.Lists.{rising};
ghost use Rattle.model.specs.Label.{within};
ghost use Rattle.model.specs.Fill.{missing};
ghost use Rattle.model.specs.Census.{countable, plan_counts, plans_missing};
ghost use Rattle.model.proofs.Sets.{marked, digits};
ghost use Rattle.refusal.specs.Named.{verdict_of};

use numbers::wide;
use refusal::Refusal;
use slots::Firsts;

// The plans that are accepted, then those refused for pivot 1, 2, 3 and 4. 30, and zeros, if n is not 1 to 4.
pub fn count_plans(n: u32, out: &mut [u64; 5]) -> Result<(), Refusal>
    ensures answer { verdict_of result ≡ countable n }
    ensures out { out.new ≡ plan_counts n }
{
    *out = [0; 5];
    if !numbers::within(n, 4) {
        return Err(Refusal::NotCounted);
    }
    count_sets(n, out);
    Ok(())
}

// Every set of labels, by its first missing pivot m, 0 if none is: out(m) = #{L : missing(L) = m}.
fn count_sets(n: u32, out: &mut [u64])
    requires { (within n 4 ≡ true) × (out.old ≡ replicate 5 0) }
    ensures { out.new ≡ rising (plans_missing n) 0 5 }
{
    for set in 0..2u32.pow(n * n) {
        let m = wide(first_missing(n, set));
        out[m] += 1;
    }
}

// The first missing pivot of a set, whose labels are the binary digits of its number: label j is in it where the one worth 2^(j - 1) is 1.
fn first_missing(n: u32, set: u32) -> u32
    requires { within n 4 ≡ true }
    ensures { result ≡ missing n (marked (n * n) set) }
{
    let mut firsts = Firsts::room();
    let mut work = [0u32; 16];
    mark_set(set, &mut work);
    let filled = slots::fill(n, &mut work, &mut firsts);
    filled.missing
}

// A number's lowest digits, the one worth 2^k at index k.
fn mark_set(mut set: u32, work: &mut [u32])
    ensures { work.new ≡ digits set (length work.old) }
{
    for w in work.iter_mut() {
        *w = set % 2;
        set /= 2;
    }
}
