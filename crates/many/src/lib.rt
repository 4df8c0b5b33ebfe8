// Many right sides on one program, in one pass along its chain: document 02, A.6.
#![tactic(auto)]

ghost use Rattle.std.specs.Prelude.{◌≡◌, [], ◌+◌, ◌*◌, ◌≤◌, ◌<◌, length, get_or, replicate};
ghost use Rattle.model.specs.Formula.{C, Y, X};
ghost use Rattle.model.specs.Check.{word};
ghost use Rattle.model.specs.Many.{sides, ran_many, verdict, replies, leaves_many};
ghost use Rattle.model.specs.Boundary.{many_numbers};
ghost use Rattle.refusal.specs.Named.{verdict_of};
ghost use Rattle.state.specs.States.{most_made};
ghost use Rattle.sides.specs.Cells.{if_going, One, Each};
ghost use Rattle.many.specs.Passes.{lengths_fit, FitMany, endings, Passed, told, FewTold, ClearedEnded};

use numbers::{wide, within};
use refusal::Refusal;
use runner::{check_values, clear};
use sides::each::any_going;
use state::State;

// Runs a program on A and on count right sides, whose B, Y and X are laid one after another: 7 to 13, then 25, 14, 15 and 21, then the records.
// Out are the chained records read, then four numbers for each side: 0, its products, its quotients and its products that vanished, or the refusal,
// 16 or 17 times 2^32 plus the record, the table, the target's number and 0; zeros past the last side. A side that is refused has its Y and X
// set to +0; C holds its values if a side is solved, else +0. A refusal of the call changes nothing but out, which is then zeros.
pub fn run_many(
    words: &[u32],
    count: u32,
    a: &[f64],
    b: &[f64],
    limit: f64,
    c: &mut [f64],
    y: &mut [f64],
    x: &mut [f64],
    out: &mut [u64; 257],
) -> Result<(), Refusal>
    ensures { let end = ran_many words.now count a.now b.now limit
        (length c.old) (length y.old) (length x.old) in
        ((verdict_of result ≡ verdict end) × (out.new ≡ many_numbers (replies words.now end)))
        × ((c.new ≡ leaves_many end (word words.now 0) C c.old)
        × ((y.new ≡ leaves_many end (word words.now 0) Y y.old)
        × (x.new ≡ leaves_many end (word words.now 0) X x.old))) }
{
    *out = [0; 257];
    check_call(words, count, a, b, limit, c.len(), y.len(), x.len())?;
    run_sides(words, wide(count), a, b, limit, c, y, x, out);
    Ok(())
}

// 7 to 13 of a Crout program, then 25, 14, 15 and 21.
fn check_call(
    words: &[u32],
    count: u32,
    a: &[f64],
    b: &[f64],
    limit: f64,
    c: usize,
    y: usize,
    x: usize,
) -> Result<(), Refusal>
    ensures { verdict_of result ≡ verdict (ran_many words.now count a.now b.now limit c y x) }
{
    checker::check_crout(words)?;
    if !within(count, 64) {
        return Err(Refusal::Sides);
    }
    if !lengths_fit(words, wide(count), a.len(), b.len(), c, y, x) {
        return Err(Refusal::Lengths);
    }
    check_values(a, b, limit)
}

// 14: the lengths of A, B, C, Y and X are n, N, s, N and N, those of B, Y and X for each right side.
// Kept: one with runner's is no plainer: there Y is empty with s = 0, which is refused here, and here B, Y and X are times count.
fn lengths_fit(
    words: &[u32],
    count: usize,
    a: usize,
    b: usize,
    c: usize,
    y: usize,
    x: usize,
) -> bool
    requires { (2 < length words.now) × ((word words.now 0 ≤ 600) × (count ≤ 64)) }
    ensures { result ≡ lengths_fit words.now count a b c y x }
{
    let rows = count * wide(words[0]);
    a == wide(words[1]) && (b == rows && (c == wide(words[2]) && (y == rows && x == rows)))
}

// The right sides of a call that passed its checks.
fn run_sides(
    words: &[u32],
    count: usize,
    a: &[f64],
    b: &[f64],
    limit: f64,
    c: &mut [f64],
    y: &mut [f64],
    x: &mut [f64],
    out: &mut [u64],
)
    requires fit_many { FitMany words.now count (length a.now) (length b.now) (length c.old) (length y.old) (length x.old) }
    requires out_value { out.old ≡ replicate 257 0 }
    ensures { let ends = endings words.now count a.now b.now limit in
        (out.new ≡ many_numbers (replies words.now (sides ends)))
        × ((c.new ≡ leaves_many (sides ends) (word words.now 0) C c.old)
        × ((y.new ≡ leaves_many (sides ends) (word words.now 0) Y y.old)
        × (x.new ≡ leaves_many (sides ends) (word words.now 0) X x.old))) }
{
    let order = wide(words[0]);
    let mut running = [0.0; 64];
    let z = pass(words, count, a, b, limit, c, y, x, &mut running, out);
    tell_each(z.products, z.quotients, z.vanished, count, out);
    clear_ended(out, count, order, y);
    clear_ended(out, count, order, x);
    if !any_going(out, count) {
        clear(c);
    }
}

// Along the chain once, with all right sides at each record, until none goes on; the first number out is how many records were read.
// Kept: slices one by one: a struct that holds a &mut would need a clause in each contract that it is still the same, no plainer.
fn pass(
    words: &[u32],
    count: usize,
    a: &[f64],
    b: &[f64],
    limit: f64,
    c: &mut [f64],
    y: &mut [f64],
    x: &mut [f64],
    running: &mut [f64],
    out: &mut [u64],
) -> State
    requires fit_many { FitMany words.now count (length a.now) (length b.now) (length c.old) (length y.old) (length x.old) }
    requires running_len { (length running.old ≡ 64) × (out.old ≡ replicate 257 0) }
    ensures { Passed words.now count a.now b.now limit result c.new y.new x.new
        running.new out.old out.new }
{
    let order = wide(words[0]);
    let mut z = state::fresh();
    let mut records = 0;
    let mut next = wide(words[3]);
    // By hand: each record names the next one, so that no range tells the turns beforehand.
    while next != 0 {
        let at = 4 * next;
        z = sides::step(
            z,
            next as u32,
            words[at],
            words[at + 1],
            words[at + 2],
            order,
            count,
            a,
            b,
            limit,
            c,
            y,
            x,
            running,
            out,
        );
        records += 1;
        if !any_going(out, count) {
            break;
        }
        next = wide(words[at + 3]);
    }
    out[0] = records;
    z
}

// Each side that goes on after the pass is solved, and tells its counts.
// By hand: r names the side's four numbers in out, at 4 r + 1.
fn tell_each(products: u64, quotients: u64, vanished: u64, count: usize, out: &mut [u64])
    requires count_bound { (count ≤ 64) × (length out.old ≡ 257) }
    requires few_told { FewTold count vanished out.old }
    ensures { Each count (λ r. if_going (told products quotients vanished)) [] out.old [] out.new }
{
    for r in 0..count {
        if out[4 * r + 1] == 0 {
            tell_one(products, quotients, vanished, r, out);
        }
    }
}

// One side is solved: its products, its quotients and all its products that vanished.
fn tell_one(products: u64, quotients: u64, vanished: u64, r: usize, out: &mut [u64])
    requires r_bound { (r < 64) × (length out.old ≡ 257) }
    requires r_bound_2 { vanished + get_or out.old (4 * r + 4) 0 ≤ most_made }
    ensures { One r (told products quotients vanished) [] out.old [] out.new }
{
    out[4 * r + 2] = products;
    out[4 * r + 3] = quotients;
    out[4 * r + 4] += vanished;
}

// The part of each side that was refused is +0.
fn clear_ended(out: &[u64], count: usize, order: usize, values: &mut [f64])
    requires count_bound { (count ≤ 64) × ((order ≤ 600) × (length out.now ≡ 257)) }
    requires values_len { length values.old ≡ count * order }
    ensures { ClearedEnded count order out.now values.old values.new }
{
    // By hand: the parts by their index; after a loop over `chunks_exact_mut` a proof knows none of the values (tried)
    for r in 0..count {
        if out[4 * r + 1] != 0 {
            let first = r * order;
            clear(&mut values[first..first + order]);
        }
    }
}
