// One operation of a record on the numbers of every right side that goes on. The numbers out are the call's first, then four for each side:
// its answer, 0 while it goes on, and the table and number of the target it was refused at, and while it goes on how many of its products vanished.
ghost use Rattle.std.specs.Prelude.{◌≡◌, ◌+◌, ◌*◌, ◌≤◌, ◌<◌, length, get_or};
ghost use Rattle.model.specs.Arith.{plus_zero};
ghost use Rattle.state.specs.States.{most_made};
ghost use Rattle.sides.specs.Cells.{if_going, ended_by, subtracted, divided, One, Each, Started, read_as, Closed, any_going, Room, Laid, FewGone};

use arith::Operation;
use state::Fault;

// Where a refusal stands: its record, and the table and number of the open target.
// Kept: the table by its number, as the state has it and the C interface tells it.
#[derive(Clone, Copy)]
pub struct At {
    pub record: u32,
    pub table: u32,
    pub target: u32,
}

// The sides' running numbers start from an entry of each part, which of B is read: v(r) = b(r, i) or y(r, i).
// Kept: a closure in `given`'s place would need a contract of its own, which says of each call what `read_as` says here.
// By hand, here and below: r names the side's part, at r * order, and its four numbers in out; a zip of chunks of both is no plainer.
pub fn start_each(
    values: &[f64],
    order: usize,
    at: usize,
    given: bool,
    count: usize,
    running: &mut [f64],
)
    requires count_bound { (count ≤ 64) × (length running.old ≡ 64) }
    requires laid { Laid count order at (length values.now) }
    ensures { Started count (λ r. read_as given (get_or values.now (r * order + at) plus_zero)) running.new }
{
    for r in 0..count {
        let value = values[r * order + at];
        running[r] = if given { arith::read(value) } else { value };
    }
}

// v(r) = v(r) - a w(r), with w(r) an entry of each part.
pub fn subtract_each(
    factor: f64,
    values: &[f64],
    order: usize,
    entry: usize,
    at: At,
    count: usize,
    running: &mut [f64],
    out: &mut [u64],
)
    requires room { Room count (length running.old) (length out.old) }
    requires laid { Laid count order entry (length values.now) }
    requires few_gone { FewGone count most_made out.old }
    ensures { Each count (λ r. if_going (subtracted at factor (get_or values.now (r * order + entry) plus_zero)))
        running.old out.old running.new out.new }
{
    for r in 0..count {
        let value = values[r * order + entry];
        subtract_one(factor, value, at, r, running, out);
    }
}

// The same of one side.
fn subtract_one(factor: f64, value: f64, at: At, r: usize, running: &mut [f64], out: &mut [u64])
    requires r_bound { (r < 64) × ((length running.old ≡ 64) × (length out.old ≡ 257)) }
    requires r_bound_2 { get_or out.old (4 * r + 4) 0 ≤ most_made }
    ensures { One r (if_going (subtracted at factor value)) running.old out.old running.new out.new }
{
    if out[4 * r + 1] != 0 {
        return;
    }
    match arith::less(running[r], factor, value) {
        Operation::Number(value) => running[r] = value,
        Operation::Vanished(value) => {
            running[r] = value;
            out[4 * r + 4] += 1;
        }
        Operation::Overflow => end_one(Fault::Overflow.number(), at, r, running, out),
        Operation::ZeroDivisor => end_one(Fault::ZeroDivisor.number(), at, r, running, out),
    }
}

// v(r) = v(r) / a.
pub fn divide_each(by: f64, at: At, count: usize, running: &mut [f64], out: &mut [u64])
    requires { Room count (length running.old) (length out.old) }
    ensures { Each count (λ r. if_going (divided at by)) running.old out.old running.new out.new }
{
    for r in 0..count {
        divide_one(by, at, r, running, out);
    }
}

// The same of one side.
fn divide_one(by: f64, at: At, r: usize, running: &mut [f64], out: &mut [u64])
    requires { (r < 64) × ((length running.old ≡ 64) × (length out.old ≡ 257)) }
    ensures { One r (if_going (divided at by)) running.old out.old running.new out.new }
{
    if out[4 * r + 1] != 0 {
        return;
    }
    match arith::quotient(running[r], by) {
        Operation::Number(value) | Operation::Vanished(value) => running[r] = value,
        Operation::Overflow => end_one(Fault::Overflow.number(), at, r, running, out),
        Operation::ZeroDivisor => end_one(Fault::ZeroDivisor.number(), at, r, running, out),
    }
}

// Every side that goes on is refused: where C is.
pub fn end_each(number: u32, at: At, count: usize, running: &mut [f64], out: &mut [u64])
    requires { Room count (length running.old) (length out.old) }
    ensures { Each count (λ r. if_going (ended_by at number)) running.old out.old running.new out.new }
{
    for r in 0..count {
        if out[4 * r + 1] == 0 {
            end_one(number, at, r, running, out);
        }
    }
}

// One side is refused, by a number and at a record.
fn end_one(number: u32, at: At, r: usize, running: &mut [f64], out: &mut [u64])
    requires { (r < 64) × ((length running.old ≡ 64) × (length out.old ≡ 257)) }
    ensures { One r (ended_by at number) running.old out.old running.new out.new }
{
    let number = u64::from(number);
    out[4 * r + 1] = (number << 32) + u64::from(at.record);
    out[4 * r + 2] = u64::from(at.table);
    out[4 * r + 3] = u64::from(at.target);
    out[4 * r + 4] = 0;
}

// Each part's entry is its side's running number: y(r, i) = v(r), or x(r, i). What a refused side leaves is cleared at the end.
pub fn close_each(running: &[f64], count: usize, order: usize, at: usize, values: &mut [f64])
    requires count_bound { (count ≤ 64) × (length running.now ≡ 64) }
    requires laid { Laid count order at (length values.old) }
    ensures { Closed count order at running.now values.old values.new }
{
    for r in 0..count {
        values[r * order + at] = running[r];
    }
}

// Whether a side goes on: the first is looked at first, and mostly it does.
pub fn any_going(out: &[u64], count: usize) -> bool
    requires { (count ≤ 64) × (length out.now ≡ 257) }
    ensures { result ≡ any_going count out.now }
{
    (0..count).any(|r| out[4 * r + 1] == 0)
}
