// The functions exported for C: document 01, "The C boundary"; document 02, A.1, A.2, A.4, A.6, A.7 and A.10 to A.14. The header is include/crout.h.
#![tactic(auto)]

ghost use Rattle.std.specs.Prelude.{◌≡◌, length};
ghost use Rattle.model.specs.Arith.{plus_zero};
ghost use Rattle.model.specs.Compile.{compact, sweep, compiles, work_after, compiles_by, work_after_by, words_after_by};
ghost use Rattle.model.specs.Compile;
ghost use Rattle.model.specs.Check.{word};
ghost use Rattle.model.specs.Compare.{compares, work_compared};
ghost use Rattle.model.specs.Path.{tracing, work_traced};
ghost use Rattle.model.specs.Dearest.{costs, work_costed};
ghost use Rattle.model.specs.Census.{countable, plan_counts};
ghost use Rattle.model.specs.Numbering.{renumbers, renumbered_work, numbering_after};
ghost use Rattle.model.specs.Residual.{measuring, measured};
ghost use Rattle.model.specs.Formula.{C, Y, X};
ghost use Rattle.model.specs.Many.{ran_many, verdict, replies, leaves_many};
ghost use Rattle.model.specs.Run.{ran, reply, leaves};
ghost use Rattle.model.specs.Solve.{solving, replied, left_in};
ghost use Rattle.model.specs.File.{writes, reads, bytes_after, words_after};
ghost use Rattle.model.specs.Boundary.{label_number, place_number, check_number, verdict_number, many_numbers};
ghost use Rattle.model.specs.Boundary.{compiled_number, compiled_numbers, filed_number, filed_numbers};
ghost use Rattle.model.specs.Boundary.{reply_number, reply_numbers, limit_numbers, Told, costs_number, renumbering_number, renumbering_numbers};

use answers::{costs_answer, limit_answer, run_answer, told_answer, verdict_answer};
use compiler::Method;

// The label of (i, j) in a table of order n; 0 if any of the three is out of range.
#[unsafe(no_mangle)]
pub extern "C" fn crout_label(n: u32, i: u32, j: u32) -> u32
    ensures { result ≡ label_number n i j }
{
    labels::label(n, i, j)
}

// The place of a label in a table of order n as 1,024 times its row plus its column; 0 if it is refused.
#[unsafe(no_mangle)]
pub extern "C" fn crout_place(n: u32, label: u32) -> u32
    ensures { result ≡ place_number n label }
{
    match labels::place(n, label) {
        Some(place) => 1024 * place.row + place.column,
        None => 0,
    }
}

// Compiles a plan of order n. out: slots, products, records.
#[unsafe(no_mangle)]
pub extern "C" fn crout_compile(
    n: u32,
    plan: &[u32],
    work: &mut [u32],
    words: &mut [u32],
    out: &mut [u64; 3],
) -> u64
    ensures answer { result ≡ compiled_number (compiles n plan.now (length work.old) (length words.old)) }
    ensures work { work.new ≡ work_after n plan.now work.old (length words.old) }
    ensures words { words.new ≡ Compile.words_after n plan.now (length work.old) words.old }
    ensures numbers { out.new ≡ compiled_numbers (compiles n plan.now (length work.old) (length words.old)) }
{
    told_answer(compiler::compile(n, plan, work, words, Method::Plain), out)
}

// The same by the second compiler, whose program uses slots again.
#[unsafe(no_mangle)]
pub extern "C" fn crout_compile_compact(
    n: u32,
    plan: &[u32],
    work: &mut [u32],
    words: &mut [u32],
    out: &mut [u64; 3],
) -> u64
    ensures answer { result ≡ compiled_number (compiles_by compact n plan.now (length work.old) (length words.old)) }
    ensures work { work.new ≡ work_after_by compact n plan.now work.old (length words.old) }
    ensures words { words.new ≡ words_after_by compact n plan.now (length work.old) words.old }
    ensures numbers { out.new
        ≡ compiled_numbers (compiles_by compact n plan.now (length work.old) (length words.old)) }
{
    told_answer(
        compiler::compile(n, plan, work, words, Method::Compact),
        out,
    )
}

// The same by the sweep's compiler: Gauss-Seidel for the plan. out: 0, products of a sweep, records.
#[unsafe(no_mangle)]
pub extern "C" fn crout_compile_sweep(
    n: u32,
    plan: &[u32],
    work: &mut [u32],
    words: &mut [u32],
    out: &mut [u64; 3],
) -> u64
    ensures answer { result ≡ compiled_number (compiles_by sweep n plan.now (length work.old) (length words.old)) }
    ensures work { work.new ≡ work_after_by sweep n plan.now work.old (length words.old) }
    ensures words { words.new ≡ words_after_by sweep n plan.now (length work.old) words.old }
    ensures numbers { out.new
        ≡ compiled_numbers (compiles_by sweep n plan.now (length work.old) (length words.old)) }
{
    told_answer(compiler::compile(n, plan, work, words, Method::Sweep), out)
}

// Checks a program file's bytes: 18, then 7 to 13.
#[unsafe(no_mangle)]
pub extern "C" fn crout_check(file: &[u8]) -> u64
    ensures { result ≡ check_number file.now }
{
    verdict_answer(checker::check_file(file))
}

// Whether a program is the one compiled for a plan of order n, but for unused records between its own: 1 to 5 of the plan, 7 to 13 of the
// program, then 28.
#[unsafe(no_mangle)]
pub extern "C" fn crout_compare(n: u32, plan: &[u32], work: &mut [u32], words: &[u32]) -> u64
    ensures answer { result ≡ verdict_number (compares n plan.now (length work.old) words.now) }
    ensures work { work.new ≡ work_compared n plan.now work.old }
{
    verdict_answer(copies::compare(n, plan, work, words))
}

// Why place (i, j) is held: a path from i to j through places of the plan, in the list. 1 to 4 of the plan, then 22 and 23. out: its entries.
#[unsafe(no_mangle)]
pub extern "C" fn crout_fill_path(
    n: u32,
    plan: &[u32],
    i: u32,
    j: u32,
    work: &mut [u32],
    list: &mut [u32],
    out: &mut [u64; 3],
) -> u64
    ensures answer { result ≡ verdict_number (tracing n plan.now i j (length work.old) (length list.old)) }
    ensures work { work.new ≡ work_traced n plan.now work.old }
    ensures path { Told n plan.now i j (length work.old) list.old list.new out.new }
{
    told_answer(paths::fill_path(n, plan, i, j, work, list), out)
}

// Whether a plan of order n costs as many products as a full table: 1 if it does, 0 if not. 1 to 5 of the plan.
#[unsafe(no_mangle)]
pub extern "C" fn crout_costs_most(n: u32, plan: &[u32], work: &mut [u32]) -> u64
    ensures answer { result ≡ costs_number (costs n plan.now (length work.old)) }
    ensures work { work.new ≡ work_costed n plan.now work.old }
{
    costs_answer(costs::costs_most(n, plan, work))
}

// How many plans of order n, 1 to 4, are accepted, then how many are refused for pivot 1, 2, 3 and 4. 30, and zeros, for other orders.
#[unsafe(no_mangle)]
pub extern "C" fn crout_count_plans(n: u32, out: &mut [u64; 5]) -> u64
    ensures answer { result ≡ verdict_number (countable n) }
    ensures out { out.new ≡ plan_counts n }
{
    verdict_answer(census::count_plans(n, out))
}

// A numbering of the unknowns of a plan of order n by which it needs no more slots, by so many trials. out: slots, trials made, distance.
#[unsafe(no_mangle)]
pub extern "C" fn crout_order(
    n: u32,
    plan: &[u32],
    trials: u32,
    work: &mut [u32],
    numbering: &mut [u32],
    out: &mut [u64; 3],
) -> u64
    ensures answer { result ≡ renumbering_number (renumbers n plan.now trials (length work.old) (length numbering.old)) }
    ensures work { work.new ≡ renumbered_work n plan.now trials work.old (length numbering.old) }
    ensures numbering { numbering.new ≡ numbering_after n plan.now trials (length work.old) numbering.old }
    ensures numbers { out.new
        ≡ renumbering_numbers (renumbers n plan.now trials (length work.old) (length numbering.old)) }
{
    told_answer(ordering::order(n, plan, trials, work, numbering), out)
}

// What is left over of each row of a plan of order n, exactly: b less the sum of a times x, as a whole number of 2^-2148, in 66 words each.
#[unsafe(no_mangle)]
pub extern "C" fn crout_residual(
    n: u32,
    plan: &[u32],
    a: &[f64],
    b: &[f64],
    x: &[f64],
    words: &mut [u64],
) -> u64
    ensures answer { result
        ≡ verdict_number (measuring n plan.now a.now b.now x.now (length words.old)) }
    ensures words { words.new ≡ measured n plan.now a.now b.now x.now words.old }
{
    verdict_answer(residual::residual(n, plan, a, b, x, words))
}

// Writes words as a program file. out: the bytes written.
#[unsafe(no_mangle)]
pub extern "C" fn crout_write(words: &[u32], bytes: &mut [u8], out: &mut [u64; 3]) -> u64
    ensures answer { result ≡ filed_number (writes (length words.now) (length bytes.old)) }
    ensures content { bytes.new ≡ bytes_after words.now bytes.old }
    ensures numbers { out.new ≡ filed_numbers (writes (length words.now) (length bytes.old)) }
{
    told_answer(codec::write_file(words, bytes), out)
}

// Reads a program file into words. out: the words written.
#[unsafe(no_mangle)]
pub extern "C" fn crout_read(bytes: &[u8], words: &mut [u32], out: &mut [u64; 3]) -> u64
    ensures answer { result ≡ filed_number (reads (length bytes.now) (length words.old)) }
    ensures content { words.new ≡ words_after bytes.now words.old }
    ensures numbers { out.new ≡ filed_numbers (reads (length bytes.now) (length words.old)) }
{
    told_answer(codec::read_file(bytes, words), out)
}

// Runs a program: a pivot l is refused where -limit <= l <= limit; with s = 0 the limit is the tolerance of a sweep. out: products,
// quotients, products that vanished, sweeps; after 16 and 17 the table, the target's number, 0, 0.
#[unsafe(no_mangle)]
pub extern "C" fn crout_run_limit(
    words: &[u32],
    a: &[f64],
    b: &[f64],
    limit: f64,
    c: &mut [f64],
    y: &mut [f64],
    x: &mut [f64],
    out: &mut [u64; 4],
) -> u64
    ensures { let end = ran words.now a.now b.now limit
        (length c.old) (length y.old) (length x.old) in
        ((result ≡ reply_number (reply end)) × (out.new ≡ limit_numbers (reply end)))
        × ((c.new ≡ leaves end C c.old)
        × ((y.new ≡ leaves end Y y.old)
        × (x.new ≡ leaves end X x.old))) }
{
    limit_answer(runner::run(words, a, b, limit, c, y, x), out)
}

// Release 1's run: the limit is +0. out: products, quotients, 0; after 16 and 17 the table, the target's number, 0.
#[unsafe(no_mangle)]
pub extern "C" fn crout_run(
    words: &[u32],
    a: &[f64],
    b: &[f64],
    c: &mut [f64],
    y: &mut [f64],
    x: &mut [f64],
    out: &mut [u64; 3],
) -> u64
    ensures { let end = ran words.now a.now b.now plus_zero
        (length c.old) (length y.old) (length x.old) in
        ((result ≡ reply_number (reply end)) × (out.new ≡ reply_numbers (reply end)))
        × ((c.new ≡ leaves end C c.old)
        × ((y.new ≡ leaves end Y y.old)
        × (x.new ≡ leaves end X x.old))) }
{
    run_answer(runner::run(words, a, b, 0.0, c, y, x), out)
}

// Runs a Crout program on many right sides, whose b, y and x are laid one after another. out: the chained records read, then four numbers for
// each side, its answer, 0 or 16 or 17 times 2^32 plus the record, and products, quotients, products that vanished, or table, number, 0; zeros
// past the last side.
#[unsafe(no_mangle)]
pub extern "C" fn crout_run_many(
    words: &[u32],
    count: u32,
    a: &[f64],
    b: &[f64],
    limit: f64,
    c: &mut [f64],
    y: &mut [f64],
    x: &mut [f64],
    out: &mut [u64; 257],
) -> u64
    ensures { let end = ran_many words.now count a.now b.now limit
        (length c.old) (length y.old) (length x.old) in
        ((result ≡ verdict_number (verdict end)) × (out.new ≡ many_numbers (replies words.now end)))
        × ((c.new ≡ leaves_many end (word words.now 0) C c.old)
        × ((y.new ≡ leaves_many end (word words.now 0) Y y.old)
        × (x.new ≡ leaves_many end (word words.now 0) X x.old))) }
{
    verdict_answer(many::run_many(words, count, a, b, limit, c, y, x, out))
}

// Compiles a plan and runs the program. limit and out as crout_run_limit's.
#[unsafe(no_mangle)]
pub extern "C" fn crout_solve_limit(
    n: u32,
    plan: &[u32],
    a: &[f64],
    b: &[f64],
    limit: f64,
    work: &mut [u32],
    words: &mut [u32],
    c: &mut [f64],
    y: &mut [f64],
    x: &mut [f64],
    out: &mut [u64; 4],
) -> u64
    ensures answer { let answer = replied n plan.now a.now b.now limit (length work.old)
        (length words.old) (length c.old) (length y.old) (length x.old) in
        (result ≡ reply_number answer) × (out.new ≡ limit_numbers answer) }
    ensures work { work.new ≡ work_after n plan.now work.old (length words.old) }
    ensures words { words.new ≡ Compile.words_after n plan.now (length work.old) words.old }
    ensures tables { let end = solving n plan.now a.now b.now limit (length work.old)
        (length words.old) (length c.old) (length y.old) (length x.old) in
        (c.new ≡ left_in end C c.old)
        × ((y.new ≡ left_in end Y y.old)
        × (x.new ≡ left_in end X x.old)) }
{
    limit_answer(
        solver::solve(n, plan, a, b, limit, work, words, c, y, x),
        out,
    )
}

// Compiles a plan and runs the program, with limit +0. out as crout_run's.
#[unsafe(no_mangle)]
pub extern "C" fn crout_solve(
    n: u32,
    plan: &[u32],
    a: &[f64],
    b: &[f64],
    work: &mut [u32],
    words: &mut [u32],
    c: &mut [f64],
    y: &mut [f64],
    x: &mut [f64],
    out: &mut [u64; 3],
) -> u64
    ensures answer { let answer = replied n plan.now a.now b.now plus_zero (length work.old)
        (length words.old) (length c.old) (length y.old) (length x.old) in
        (result ≡ reply_number answer) × (out.new ≡ reply_numbers answer) }
    ensures work { work.new ≡ work_after n plan.now work.old (length words.old) }
    ensures words { words.new ≡ Compile.words_after n plan.now (length work.old) words.old }
    ensures tables { let end = solving n plan.now a.now b.now plus_zero (length work.old)
        (length words.old) (length c.old) (length y.old) (length x.old) in
        (c.new ≡ left_in end C c.old)
        × ((y.new ≡ left_in end Y y.old)
        × (x.new ≡ left_in end X x.old)) }
{
    run_answer(solver::solve(n, plan, a, b, 0.0, work, words, c, y, x), out)
}
