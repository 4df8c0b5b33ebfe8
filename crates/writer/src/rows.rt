// The rows of a sweep, from the positions of a plan's labels in the work numbers. Document 02, A.7.
ghost use Rattle.std.specs.Prelude.{◌≡◌, ◌++◌, ◌*◌, drop};
ghost use Rattle.model.specs.Fill.{Plan};
ghost use Rattle.model.specs.Sweep.{compiled_sweep, bare};
ghost use Rattle.model.specs.Compile.{sweep, records_by};
ghost use Rattle.model.proofs.Labels.{Inside};
ghost use Rattle.writer.specs.Written.{Room, Wrote};
ghost use Rattle.writer.specs.Worked.{Covers};
ghost use Rattle.writer.specs.Sweep.{Positions, Planned, right_of, others_at, row_at, row_records};

use crate::{Kind, divide, finish, head, put, subtract, write_left};
use numbers::wide;

// The first row without a diagonal coefficient, 0 if there is none. Labels along the diagonal grow by 2 (n - r) + 1.
// Kept: 0 for none: its clause is an equation with bare, and an Option needs a definition between them, no plainer.
pub fn first_bare(n: u32, work: &[u32]) -> u32
    requires { Covers n work.now }
    ensures { (L : Plan) → Positions n L work.now → result ≡ bare n L }
{
    let mut at = 0;
    // the first r of 1..n whose a(r,r) is not in the plan
    for r in 1..=n {
        if work[at] == 0 {
            return r;
        }
        at += 2 * wide(n - r) + 1;
    }
    0
}

// The whole program of a sweep: record 0, with no slots, and the rows; the last record's next is 0.
pub fn write_rows(n: u32, plan: &[u32], work: &[u32], words: &mut [u32])
    requires { Planned n plan.now work.now words.old }
    ensures { words.new ≡ compiled_sweep n plan.now ++ drop (4 * records_by sweep n plan.now) words.old }
{
    head(n, plan, words, 0);
    let end = write_each_row(n, work, words);
    finish(words, end);
}

// The rows, from record 1 on; the answer is the next free record.
fn write_each_row(n: u32, work: &[u32], words: &mut [u32]) -> u32
    requires covers { Covers n work.now }
    requires room { Room 0 1 (row_records n work.now) words.old }
    ensures { Wrote 0 1 (row_records n work.now) words.old words.new result }
{
    let mut next = 1;
    // x(r) = (b(r) - sum over j /= r of a(r,j) x(j)) / a(r,r), for r = 1..n
    for r in 1..=n {
        let start = 4 * wide(next);
        next = write_row(n, work, &mut words[start..], next, r);
    }
    next
}

// x(r).
fn write_row(n: u32, work: &[u32], rest: &mut [u32], k: u32, r: u32) -> u32
    requires covers { Covers n work.now }
    requires inside { Inside n r r }
    requires room { Room k k (row_at n work.now r) rest.old }
    ensures { Wrote k k (row_at n work.now r) rest.old rest.new result }
{
    let diagonal = wide(labels::label(n, r, r));
    let opened = put(rest, k, k, Kind::OpenRow, r, 0);
    let reduced = write_others(n, work, rest, k, opened, r);
    let divided = divide(rest, k, reduced, Kind::DivideByA, work[diagonal - 1]);
    put(rest, k, divided, Kind::Close, 0, 0)
}

// The products a(r,j) x(j) of the other columns, j rising.
fn write_others(n: u32, work: &[u32], rest: &mut [u32], first: u32, k: u32, r: u32) -> u32
    requires covers { Covers n work.now }
    requires inside { Inside n r r }
    requires room { Room first k (others_at n work.now r) rest.old }
    ensures { Wrote first k (others_at n work.now r) rest.old rest.new result }
{
    let left = write_left(n, work, rest, first, k, Kind::LessAX, r, 1);
    write_right_of(n, work, rest, first, left, r)
}

// Those right of the diagonal. Labels along row r grow by 1 there, so their numbers stand one after another.
fn write_right_of(n: u32, work: &[u32], rest: &mut [u32], first: u32, k: u32, r: u32) -> u32
    requires covers { Covers n work.now }
    requires inside { Inside n r r }
    requires room { Room first k (right_of n work.now r) rest.old }
    ensures { Wrote first k (right_of n work.now r) rest.old rest.new result }
{
    let mut next = k;
    let right = wide(n - r);
    let from = wide(labels::label(n, r, r)) + right;
    // b(r) - sum over j > r of a(r,j) x(j)
    for (h, &p) in work[from..from + right].iter().enumerate() {
        next = subtract(rest, first, next, Kind::LessAX, p, r + 1 + h as u32);
    }
    next
}
