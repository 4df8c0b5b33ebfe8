// What is left over of each row, exactly: b less the sum of a times x, as a whole number of 2^-2148. Document 02, A.4.
#![tactic(auto)]

ghost use Rattle.std.specs.Prelude.{◌≡◌, true, ◌&&◌, suc, ◌^◌, ◌*◌, ◌≤◌, ◌<◌, eqb, length, pos, ◌*ℤ◌, Float, List};
ghost use Rattle.model.specs.Label.{is_order};
ghost use Rattle.model.specs.Arith.{is_finite};
ghost use Rattle.model.specs.Compile.{judged, good};
ghost use Rattle.model.specs.Residual.{exact, measuring, measured};
ghost use Rattle.model.specs.Residual;
ghost use Rattle.model.proofs.Rows.{Held, HeldRows};
ghost use Rattle.refusal.specs.Named.{verdict_of};
ghost use Rattle.labels.specs.Batches.{Holds};
ghost use Rattle.residual.specs.Subtracted.{Finite, start_of, LessProduct, LessLabel};

use digits::Wide;
use labels::Batch;
use numbers::wide;
use refusal::Refusal;
use runner::all_finite;

// The words of a row.
const WORDS: usize = 66;

// The residuals of all rows, 66 words each: 1, 3 and 4 of the plan, 14, 15 and 24.
pub fn residual(
    n: u32,
    plan: &[u32],
    a: &[f64],
    b: &[f64],
    x: &[f64],
    words: &mut [u64],
) -> Result<(), Refusal>
    ensures answer { verdict_of result ≡ measuring n plan.now a.now b.now x.now (length words.old) }
    ensures words { words.new ≡ measured n plan.now a.now b.now x.now words.old }
{
    check(n, plan, a, b, x, words.len())?;
    start_rows(b, words);
    less_products(n, plan, a, x, words);
    Ok(())
}

// All checks, in their order.
fn check(n: u32, plan: &[u32], a: &[f64], b: &[f64], x: &[f64], words: usize) -> Result<(), Refusal>
    ensures { verdict_of result ≡ measuring n plan.now a.now b.now x.now words }
{
    plans::check(n, plan, 0, 0)?;
    if !lengths_fit(wide(n), plan.len(), a.len(), b.len(), x.len()) {
        return Err(Refusal::Lengths);
    }
    all_finite(a)?;
    all_finite(b)?;
    all_finite(x)?;
    if words != WORDS * wide(n) {
        return Err(Refusal::Remainder);
    }
    Ok(())
}

// Kept: by the plan, with no C and no Y, where runner's goes by a program's words: one function for both is no plainer.
fn lengths_fit(n: usize, plan: usize, a: usize, b: usize, x: usize) -> bool
    ensures { result ≡ (eqb a plan && (eqb b n && eqb x n)) }
{
    a == plan && (b == n && x == n)
}

// Each row starts from b: row r = b(r) 2^2148.
fn start_rows(b: &[f64], words: &mut [u64])
    requires { Finite b.now × (length b.now ≤ 600) × (length words.old ≡ length b.now * 66) }
    ensures { HeldRows (length b.now) (start_of b.now) words.new }
{
    // By hand: the rows by their index; after a loop over `chunks_exact_mut` a proof knows how many words there are, and none of them (tried)
    for (r, &value) in b.iter().enumerate() {
        let first = r * WORDS;
        start_row(&mut words[first..first + WORDS], value);
    }
}

// For each label, its coefficient times the entry of x at its column is taken from its row: row i = row i - a(i, j) x(j) 2^2148.
fn less_products(n: u32, plan: &[u32], a: &[f64], x: &[f64], words: &mut [u64])
    requires n_value { (is_order n ≡ true) × (judged n 0 1 plan.now ≡ good) }
    requires finite { Finite a.now × (length a.now ≡ length plan.now) }
    requires finite_2 { Finite x.now × (length x.now ≡ n) × (length words.old ≡ n * 66) }
    ensures { (B : List Float) → HeldRows n (start_of B) words.old → HeldRows n (Residual.residual n plan.now a.now B x.now) words.new }
{
    let mut batch = Batch::FIRST;
    for (&label, &coefficient) in plan.iter().zip(a) {
        batch = labels::batch_of(n, label, batch);
        less_label(n, label, batch, coefficient, x, words);
    }
}

// One label of this batch, with coefficient a: row i = row i - a x(j) 2^2148.
fn less_label(n: u32, label: u32, batch: Batch, a: f64, x: &[f64], words: &mut [u64])
    requires n_bound { (n ≤ 600) × Holds n label batch × (is_finite a ≡ true) }
    requires finite { Finite x.now × (length x.now ≡ n) × (length words.old ≡ n * 66) }
    ensures { LessLabel n x.now label a words.old words.new }
{
    let place = labels::place_in(n, label, batch);
    let first = wide(place.row - 1) * WORDS;
    less_product(
        &mut words[first..first + WORDS],
        a,
        x[wide(place.column - 1)],
    );
}

// row = b 2^2148.
fn start_row(row: &mut [u64], b: f64)
    requires { (length row.old ≡ 66) × (is_finite b ≡ true) }
    ensures { Held row.new (exact b *ℤ pos (2 ^ 1074)) }
{
    row.fill(0);
    let value = digits::parts(b);
    let digits = Wide {
        low: value.digits,
        high: 0,
    };
    sums::change_wide(row, value.shift + 1074, digits, value.minus);
}

// row = row - a x 2^2148.
fn less_product(row: &mut [u64], a: f64, x: f64)
    requires { (length row.old ≡ 66) × (is_finite a ≡ true) × (is_finite x ≡ true) }
    ensures { LessProduct a x row.old row.new }
{
    let first = digits::parts(a);
    let second = digits::parts(x);
    let product = digits::product(first.digits, second.digits);
    // a product that is not negative is subtracted
    let minus = first.minus == second.minus;
    sums::change_wide(row, first.shift + second.shift, product, minus);
}
