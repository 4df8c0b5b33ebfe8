// The state of a run, and one record on it: document 01, "Running"; document 02, A.1, A.5, A.6, A.7 and A.11.
#![tactic(auto)]

ghost use Rattle.std.specs.Prelude.{◌≡◌, cond, [], map, ◌-◌, ◌≤◌, ◌<◌, eqb, length, get_or, set};
ghost use Rattle.model.specs.Arith.{plus_zero, clean, quotient, vanishes};
ghost use Rattle.model.specs.Formula.{less};
ghost use Rattle.model.specs.Sweep.{moves_more};
ghost use Rattle.model.specs.Check.{kind_of};
ghost use Rattle.model.specs.Run as Run;
ghost use Rattle.state.specs.States.{most_made, unopened, whole, Sound, SoundStep, Free, Of, Ready, ReadyInC, SweepReady, MovesStep, number_of_fault};
ghost use Rattle.state.specs.States.{state_of, stepped_of, answered, opened, subtracted, divided_by, settled, unmoved};

use arith::Operation;
use numbers::wide;

// The running number, the table and number of its target, how many entries of C, Y and X are closed (of C those from 1 up to the highest
// closed), the products and quotients made, how many of the products vanished, and whether a row of this sweep moved by more than the limit.
// Kept: the table by its number: document 01's form (`table: u32` in tests/forms.sh), and the C interface tells it so.
#[derive(Clone, Copy)]
pub struct State {
    pub running: f64,
    pub table: u32,
    pub target: u32,
    pub c: usize,
    pub y: usize,
    pub x: usize,
    pub products: u64,
    pub quotients: u64,
    pub vanished: u64,
    pub moved: bool,
}

// What stops a run at a record: 16, or 17.
#[derive(Clone, Copy)]
pub enum Fault {
    Overflow,
    ZeroDivisor,
}

impl Fault {
    // Its number in document 01.
    pub fn number(self) -> u32
        ensures { result ≡ number_of_fault self }
    {
        match self {
            Fault::Overflow => 16,
            Fault::ZeroDivisor => 17,
        }
    }
}

impl State {
    // The target is open, and starts from the value.
    fn open(mut self, table: u32, target: u32, value: f64) -> State
        ensures { result ≡ opened self table target value }
    {
        self.table = table;
        self.target = target;
        self.running = value;
        self
    }

    // The running number less a product, which is counted apart where it vanishes.
    fn subtract(mut self, a: f64, b: f64) -> Result<State, Fault>
        requires { (self.products < most_made) × (self.vanished ≤ self.products) }
        ensures { result ≡ answered (less self.running a b) (subtracted self (vanishes a b)) }
    {
        match arith::less(self.running, a, b) {
            Operation::Number(value) => {
                self.running = value;
                self.products += 1;
                Ok(self)
            }
            Operation::Vanished(value) => {
                self.running = value;
                self.products += 1;
                self.vanished += 1;
                Ok(self)
            }
            Operation::Overflow => Err(Fault::Overflow),
            Operation::ZeroDivisor => Err(Fault::ZeroDivisor),
        }
    }

    // The running number over a divisor.
    fn divide(mut self, by: f64) -> Result<State, Fault>
        requires { self.quotients < most_made }
        ensures { result ≡ answered (quotient self.running by) (divided_by self) }
    {
        match arith::quotient(self.running, by) {
            Operation::Number(value) | Operation::Vanished(value) => {
                self.running = value;
                self.quotients += 1;
                Ok(self)
            }
            Operation::Overflow => Err(Fault::Overflow),
            Operation::ZeroDivisor => Err(Fault::ZeroDivisor),
        }
    }

    // The open target takes the running number: an entry of C where it stands, or after the last (document 02, A.11); Y closes from the
    // left, X from the right.
    fn close(mut self, c: &mut [f64], y: &mut [f64], x: &mut [f64]) -> State
        requires { Sound (length c.old) (length y.old) (length x.old) self × Free (length c.old) (length y.old) (length x.old) self }
        ensures x_after { state_of result c.new y.new x.new
            ≡ Run.closing (state_of self c.old y.old x.old) }
        ensures sound { Sound (length c.old) (length y.old) (length x.old) result }
    {
        match self.table {
            1 => {
                let at = wide(self.target) - 1;
                c[at] = self.running;
                if at == self.c {
                    self.c = at + 1;
                }
            }
            2 => {
                let at = self.y;
                y[at] = self.running;
                self.y = at + 1;
            }
            _ => {
                let closed = self.x + 1;
                let at = x.len() - closed;
                x[at] = self.running;
                self.x = closed;
            }
        }
        self
    }

    // The open row takes the running number, in the place of the sweep before's (document 02, A.7).
    fn settle(mut self, limit: f64, x: &mut [f64]) -> State
        requires { Of (length x.old) self.target }
        ensures { (result ≡ settled self (moves_more limit (get_or x.old (self.target - 1) plus_zero) self.running))
            × (x.new ≡ set x.old (self.target - 1) self.running) }
    {
        let at = wide(self.target) - 1;
        let new = self.running;
        if arith::moves_more(limit, x[at], new) {
            self.moved = true;
        }
        x[at] = new;
        self
    }

    // The next sweep begins: none of its rows moved yet.
    pub fn again(mut self) -> State
        ensures { result ≡ unmoved self }
    {
        self.moved = false;
        self
    }
}

// The k-th value, from 1.
pub fn entry(values: &[f64], k: u32) -> f64
    requires { (0 < k) × (k ≤ length values.now) }
    ensures { result ≡ get_or values.now (k - 1) plus_zero }
{
    let at = wide(k) - 1;
    values[at]
}

// A(p), or zero if p is 0.
fn coefficient(a: &[f64], p: u32) -> f64
    requires { p ≤ length a.now }
    ensures { result ≡ cond (eqb p 0) plus_zero (clean (get_or a.now (p - 1) plus_zero)) }
{
    if p == 0 {
        0.0
    } else {
        arith::read(entry(a, p))
    }
}

// One record. A pivot l, at kind 9, is refused where -limit <= l <= limit.
// Kept: the kind by its number: a word may hold any, so an enum would be made by a match on it and taken apart by this one, no plainer.
#[inline(always)]
pub fn step(
    z: State,
    kind: u32,
    p: u32,
    q: u32,
    a: &[f64],
    b: &[f64],
    limit: f64,
    c: &mut [f64],
    y: &mut [f64],
    x: &mut [f64],
) -> Result<State, Fault>
    requires { Ready (length a.now) (length b.now) (length c.old) (length y.old) (length x.old) z kind p q }
    ensures x_after { stepped_of result c.new y.new x.new
        ≡ Run.step a.now b.now limit (state_of z c.old y.old x.old) (kind_of kind) p q }
    ensures sound_step { SoundStep (length c.old) (length y.old) (length x.old) result }
{
    match kind {
        1 => Ok(z.open(1, q, coefficient(a, p))),
        2 => Ok(z.open(2, p, arith::read(entry(b, p)))),
        3 => Ok(z.open(3, p, entry(y, p))),
        4 => z.subtract(entry(c, p), entry(c, q)),
        5 => z.subtract(entry(c, p), entry(y, q)),
        6 => z.subtract(entry(c, p), entry(x, q)),
        7 => z.divide(entry(c, p)),
        8 => Ok(z.close(c, y, x)),
        9 => {
            if arith::is_small(limit, z.running) {
                Err(Fault::ZeroDivisor)
            } else {
                Ok(z.close(c, y, x))
            }
        }
        _ => Ok(z),
    }
}

// One record on a target in C, with no Y and X lent.
pub fn step_in_c(
    z: State,
    kind: u32,
    p: u32,
    q: u32,
    a: &[f64],
    limit: f64,
    c: &mut [f64],
) -> Result<State, Fault>
    requires { ReadyInC (length a.now) (length c.old) z kind p q }
    ensures c_after { stepped_of result c.new [] []
        ≡ Run.step a.now [] limit (state_of z c.old [] []) (kind_of kind) p q }
    ensures sound_step { SoundStep (length c.old) 0 0 result }
{
    step(z, kind, p, q, a, &[], limit, c, &mut [], &mut [])
}

// One record of a sweep: kinds 10, 11 and 12 do what 3, 6 and 7 do, with A in C's place and B in Y's, and 8 closes the row.
// Kept: slices one by one: a struct that holds a &mut would need a clause in each contract that it is still the same, no plainer.
pub fn sweep_step(
    z: State,
    kind: u32,
    p: u32,
    q: u32,
    a: &[f64],
    b: &[f64],
    limit: f64,
    x: &mut [f64],
) -> Result<State, Fault>
    requires { SweepReady (length a.now) (length b.now) (length x.old) z kind p q }
    ensures x_after { stepped_of result (map clean a.now) (map clean b.now) x.new
        ≡ Run.step a.now b.now limit
        (state_of z (map clean a.now) (map clean b.now) x.old) (kind_of kind) p q }
    ensures sound_step { SoundStep (length a.now) (length b.now) (length x.old) result }
    ensures moves_step { MovesStep limit z (kind_of kind) x.old result }
{
    match kind {
        10 => Ok(z.open(3, p, arith::read(entry(b, p)))),
        11 => z.subtract(arith::read(entry(a, p)), entry(x, q)),
        12 => z.divide(arith::read(entry(a, p))),
        _ => Ok(z.settle(limit, x)),
    }
}

// Nothing is open or closed, and nothing made.
pub fn fresh() -> State
    ensures { result ≡ unopened }
{
    State {
        running: 0.0,
        table: 1,
        target: 0,
        c: 0,
        y: 0,
        x: 0,
        products: 0,
        quotients: 0,
        vanished: 0,
        moved: false,
    }
}

// The state before the first sweep, with n coefficients and N rows: A, B and X stand there whole.
pub fn loaded(coefficients: usize, rows: usize) -> State
    ensures { result ≡ whole coefficients rows }
{
    State {
        c: coefficients,
        y: rows,
        x: rows,
        ..fresh()
    }
}
