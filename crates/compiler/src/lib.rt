// The compiler: document 01, "Fill and slots", "Records" and checks 1 to 6; document 02, A.7 and A.11.
#![tactic(auto)]

mod sweeps;

ghost use Rattle.std.specs.Prelude.{◌≡◌, List, ◌++◌, ◌+◌, ◌*◌, ◌≤◌, ◌<◌, length, take, drop, MatchResult};
ghost use Rattle.model.specs.Fill.{record_count};
ghost use Rattle.model.specs.Compile.{plain, compact, compiles_by, work_after_by, words_after_by};
ghost use Rattle.model.proofs.Compiles.{Ends};
ghost use Rattle.refusal.specs.declared.Refusal.TheVariants.{WordsShort};
ghost use Rattle.compiler.specs.Compilation.{compiled_of, compiler_of, records_of};
ghost use Rattle.compiler.specs.Slotted.{SomeSlotted, CompactEnds};

use numbers::wide;
use refusal::Refusal;
use slots::{Filled, Firsts};
use sweeps::compile_rows;

// The slots, the product count and the records of the program written.
#[derive(Clone, Copy)]
pub struct Written {
    pub slots: u32,
    pub products: u32,
    pub records: u32,
}

// Which program is written: Crout's; the same with slots used again, so that s is the largest number of values alive at any record; or a sweep's.
#[derive(Clone, Copy)]
pub enum Method {
    Plain,
    Compact,
    Sweep,
}

// Compiles a plan of order n. On success the program is the first four times records words. Check 2 of the second compiler wants 4 n² work numbers;
// those past the first n² are 0 after 5, 6 and success. A sweep's 26, in the place of 5, names the first row without a diagonal coefficient, and after
// 6 and success its work number K is the position of label K in the plan, 0 where it isn't there.
pub fn compile(
    n: u32,
    plan: &[u32],
    work: &mut [u32],
    words: &mut [u32],
    method: Method,
) -> Result<Written, Refusal>
    ensures answer { compiled_of result ≡ compiles_by (compiler_of method) n plan.now (length work.old) (length words.old) }
    ensures work { work.new ≡ work_after_by (compiler_of method) n plan.now work.old (length words.old) }
    ensures words { words.new ≡ words_after_by (compiler_of method) n plan.now (length work.old) words.old }
{
    match method {
        Method::Plain => compile_plain(n, plan, work, words),
        Method::Compact => compile_compact(n, plan, work, words),
        Method::Sweep => compile_rows(n, plan, work, words),
    }
}

// Document 01's compiler: 1 to 5 and the slots, 6 and the records. It isn't compiled into `compile`: a sweep's frame would have room for its notes.
#[inline(never)]
fn compile_plain(
    n: u32,
    plan: &[u32],
    work: &mut [u32],
    words: &mut [u32],
) -> Result<Written, Refusal>
    ensures { Ends plain n plan.now work.old words.old (compiled_of result) work.new words.new }
{
    let mut firsts = Firsts::room();
    let filled = plans::slots(n, plan, work, &mut firsts, 1)?;
    let records = record_count(n, filled);
    check_words(records, words.len())?;
    writer::write(
        n,
        plan,
        work,
        &firsts.rows,
        &firsts.columns,
        words,
        filled.slots,
    );
    Ok(Written {
        slots: filled.slots,
        products: filled.products,
        records,
    })
}

// The second compiler. The work numbers past the first n² are cleared, whether the program was written or not. See `compile_plain`.
#[inline(never)]
fn compile_compact(
    n: u32,
    plan: &[u32],
    work: &mut [u32],
    words: &mut [u32],
) -> Result<Written, Refusal>
    ensures { Ends compact n plan.now work.old words.old (compiled_of result) work.new words.new }
{
    let mut firsts = Firsts::room();
    let filled = plans::slots(n, plan, work, &mut firsts, 4)?;
    let written = write_compact(n, plan, work, &firsts, words, filled);
    let square = wide(n * n);
    slots::clear(&mut work[square..], 3 * square);
    written
}

// 6, and the program with slots used again. The slots given stand past the plain ones then.
fn write_compact(
    n: u32,
    plan: &[u32],
    work: &mut [u32],
    firsts: &Firsts,
    words: &mut [u32],
    filled: Filled,
) -> Result<Written, Refusal>
    requires { SomeSlotted 4 n plan.now work.old firsts.now.rows firsts.now.columns filled }
    ensures ends { CompactEnds n plan.now work.old firsts.now.rows firsts.now.columns words.old filled (compiled_of result) words.new }
    ensures first { take (n * n) work.new ≡ take (n * n) work.old }
    ensures rest { drop (4 * (n * n)) work.new ≡ drop (4 * (n * n)) work.old }
{
    let records = record_count(n, filled);
    check_words(records, words.len())?;
    let square = wide(n * n);
    work.copy_within(..square, square);
    let Firsts { rows, columns } = firsts;
    let slots = reuse::assign(n, rows, &mut work[square..4 * square]);
    writer::write(n, plan, &work[square..], rows, columns, words, slots);
    Ok(Written {
        slots,
        products: filled.products,
        records,
    })
}

// 6: a program of so many records fits the words.
fn check_words(records: u32, words: usize) -> Result<(), Refusal>
    ensures { MatchResult result (λ _. 4 * records ≤ words) (λ refusal. (refusal ≡ WordsShort records) × (words < 4 * records)) }
{
    if words < 4 * wide(records) {
        return Err(Refusal::WordsShort {
            records: u64::from(records),
        });
    }
    Ok(())
}

// The records of a program, record 0 included: document 01, "Records".
fn record_count(n: u32, filled: Filled) -> u32
    requires { records_of n filled ≤ 100000000 }
    ensures { result ≡ records_of n filled }
{
    1 + 2 * (filled.slots + 2 * n) + filled.products + n + filled.above
}
