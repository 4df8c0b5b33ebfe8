// One record on many right sides: document 02, A.6. What is in C is worked once, what is in Y and X for each side that goes on.
#![tactic(auto)]

pub mod each;

ghost use Rattle.std.specs.Prelude.{length};
ghost use Rattle.state.specs.States.{Sound, ReadyInC};
ghost use Rattle.sides.specs.Cells.{Room};
ghost use Rattle.sides.specs.Standing.{SidesReady, Steps, Kept, alone, StepsInC, SoundInC};
ghost use Rattle.sides.specs.Standing.{ReadyInRows, StepsInRows, CloseReady, ClosesInRows, SoundAfter};

use each::{At, close_each, divide_each, end_each, start_each, subtract_each};
use numbers::wide;
use state::{State, entry};

// One record, at index k, on all right sides: B, Y and X have a part for each, C is shared, and z is the state that they share.
// Kept: the kind by its number: a word may hold any, so an enum would be made by a match on it and taken apart by this one, no plainer.
pub fn step(
    z: State,
    k: u32,
    kind: u32,
    p: u32,
    q: u32,
    order: usize,
    count: usize,
    a: &[f64],
    b: &[f64],
    limit: f64,
    c: &mut [f64],
    y: &mut [f64],
    x: &mut [f64],
    running: &mut [f64],
    out: &mut [u64],
) -> State
    requires { SidesReady count order (length a.now) (length b.now) (length c.old) (length y.old) (length x.old) (length running.old)
        out.old z kind p q }
    ensures steps { Steps count order a.now b.now limit k kind p q
        z c.old y.old x.old running.old out.old
        result c.new y.new x.new running.new out.new }
    ensures sound { Sound (length c.old) order order result × Kept count out.old out.new }
{
    if kind == 1 || (3 < kind && z.table == 1) {
        step_in_c(z, k, kind, p, q, count, a, limit, c, running, out)
    } else {
        step_in_rows(z, k, kind, p, q, order, count, b, c, y, x, running, out)
    }
}

// A record on a target in C: once for all. Its refusal is one of every side that goes on.
fn step_in_c(
    z: State,
    k: u32,
    kind: u32,
    p: u32,
    q: u32,
    count: usize,
    a: &[f64],
    limit: f64,
    c: &mut [f64],
    running: &mut [f64],
    out: &mut [u64],
) -> State
    requires { ReadyInC (length a.now) (length c.old) (alone z) kind p q × Room count (length running.old) (length out.old) }
    ensures steps_in_c { StepsInC count a.now limit k kind p q z c.old running.old out.old
        result c.new running.new out.new }
    ensures sound_in_c { SoundInC (length c.old) z result × Kept count out.old out.new }
{
    let alone = State { y: 0, x: 0, ..z };
    match state::step_in_c(alone, kind, p, q, a, limit, c) {
        // Kept: by assignment; with `State { y: z.y, x: z.x, ..after }` a run takes 156 us in place of 78 (three-diagonal matrix of order 600).
        Ok(mut after) => {
            after.y = z.y;
            after.x = z.x;
            after
        }
        Err(fault) => {
            let at = At {
                record: k,
                table: z.table,
                target: z.target,
            };
            end_each(fault.number(), at, count, running, out);
            z
        }
    }
}

// A record on a target in Y or X: for each side that goes on.
// Kept: slices one by one: a struct that holds a &mut would need a clause in each contract that it is still the same, no plainer.
fn step_in_rows(
    mut z: State,
    k: u32,
    kind: u32,
    p: u32,
    q: u32,
    order: usize,
    count: usize,
    b: &[f64],
    c: &[f64],
    y: &mut [f64],
    x: &mut [f64],
    running: &mut [f64],
    out: &mut [u64],
) -> State
    requires { ReadyInRows count order (length b.now) (length c.now) (length y.old) (length x.old) (length running.old) out.old z kind p q }
    ensures steps_in_rows { StepsInRows count order b.now k kind p q
        z c.now y.old x.old running.old out.old
        result y.new x.new running.new out.new }
    ensures sound { Sound (length c.now) order order result × Kept count out.old out.new }
{
    let at = At {
        record: k,
        table: z.table,
        target: z.target,
    };
    match kind {
        2 => {
            start_each(b, order, wide(p) - 1, true, count, running);
            z.table = 2;
            z.target = p;
        }
        3 => {
            start_each(y, order, wide(p) - 1, false, count, running);
            z.table = 3;
            z.target = p;
        }
        5 => {
            subtract_each(entry(c, p), y, order, wide(q) - 1, at, count, running, out);
            z.products += 1;
        }
        6 => {
            subtract_each(entry(c, p), x, order, wide(q) - 1, at, count, running, out);
            z.products += 1;
        }
        7 => {
            divide_each(entry(c, p), at, count, running, out);
            z.quotients += 1;
        }
        _ => z = close_in_rows(z, order, count, running, y, x),
    }
    z
}

// The sides' running numbers are closed: in Y from the left, in X from the right.
fn close_in_rows(
    mut z: State,
    order: usize,
    count: usize,
    running: &[f64],
    y: &mut [f64],
    x: &mut [f64],
) -> State
    requires { CloseReady count order (length running.now) (length y.old) (length x.old) z }
    ensures closes_in_rows { ClosesInRows count order z running.now y.old x.old result y.new x.new }
    ensures sound_after { SoundAfter order z result }
{
    if z.table == 2 {
        let at = z.y;
        close_each(running, count, order, at, y);
        z.y = at + 1;
    } else {
        let closed = z.x + 1;
        close_each(running, count, order, order - closed, x);
        z.x = closed;
    }
    z
}
