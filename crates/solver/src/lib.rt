// Solving as one call: the plan is compiled, and the program is run.
//
// The contract of `solve` is demand 3. It cites the checks 1 to 6, 14, 15 and 21 and dense Crout alone (`solving` in
// crates/model/specs/Solve.antt): for every input the answer and every lent slice are given; for an accepted plan, finite values and a limit they are
// dense Crout's with that limit, bit for bit, with the plan's product count, or 16 or 17 at the same formula. A plan refused for a missing pivot is
// solved by dense Crout for no finite values and no limit: that is the law `never_solved` in crates/model/proofs/Reduction.antt.
#![tactic(auto)]

ghost use Rattle.std.specs.Prelude.{◌≡◌, length};
ghost use Rattle.model.specs.Formula.{C, Y, X};
ghost use Rattle.model.specs.Compile.{work_after, words_after};
ghost use Rattle.model.specs.Solve.{solving, told, tells_of, replied, left_in};
ghost use Rattle.runner.specs.Outcome.{reply_of};

use compiler::Method;
use numbers::wide;
use runner::{Failure, Solution};

// Solves the system of a plan of order n with the coefficients A and the right side B. work and words are lent to the compiler, C, Y and X to the
// run. It ends as a run does, or by the compiler's refusal.
pub fn solve(
    n: u32,
    plan: &[u32],
    a: &[f64],
    b: &[f64],
    limit: f64,
    work: &mut [u32],
    words: &mut [u32],
    c: &mut [f64],
    y: &mut [f64],
    x: &mut [f64],
) -> Result<Solution, Failure>
    ensures answer { let end = solving n plan.now a.now b.now limit (length work.old)
        (length words.old) (length c.old) (length y.old) (length x.old) in
        tells_of (reply_of result) ≡ told end }
    ensures record { reply_of result ≡ replied n plan.now a.now b.now limit (length work.old)
        (length words.old) (length c.old) (length y.old) (length x.old) }
    ensures work { work.new ≡ work_after n plan.now work.old (length words.old) }
    ensures words { words.new ≡ words_after n plan.now (length work.old) words.old }
    ensures tables { let end = solving n plan.now a.now b.now limit (length work.old)
        (length words.old) (length c.old) (length y.old) (length x.old) in
        (c.new ≡ left_in end C c.old)
        × ((y.new ≡ left_in end Y y.old)
        × (x.new ≡ left_in end X x.old)) }
{
    let written = compiler::compile(n, plan, work, words, Method::Plain)?;
    let end = 4 * wide(written.records);
    runner::run(&words[..end], a, b, limit, c, y, x)
}
