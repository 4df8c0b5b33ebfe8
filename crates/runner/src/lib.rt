// A checked program on values: document 01, "Running", and 14 to 17; document 02, A.1, A.5, A.7 and A.11.
#![tactic(auto)]

ghost use Rattle.std.specs.Prelude.{◌≡◌, Bool, true, false, ◌<◌, not, position, length, replicate};
ghost use Rattle.model.specs.Arith.{is_finite, plus_zero};
ghost use Rattle.model.specs.Formula.{C, Y, X};
ghost use Rattle.model.specs.Check.{word, chain, kind_of, is_sweep};
ghost use Rattle.model.specs.Run as Run;
ghost use Rattle.refusal.specs.Named.{verdict_of};
ghost use Rattle.runner.specs.Outcome.{reply_of, fifteen, solution_of, stop_of};
ghost use Rattle.runner.specs.declared.Failure.TheVariants.{Stopped, Refused};
ghost use Rattle.state.specs.States.{SoundStep};
ghost use Rattle.runner.specs.Following.{done, Stood, lengths_fit, Fit, in_place, holding, followed_of, stepped_by};
ghost use Rattle.runner.specs.Following.{BeginsWith, EndsWith, ReadyBy, MovesBy};

use numbers::wide;
use refusal::Refusal;
use state::{Fault, State};

// A solved run: the products and quotients made, the products that vanished and the sweeps, 0 for Crout.
#[derive(Clone, Copy)]
pub struct Solution {
    pub products: u64,
    pub quotients: u64,
    pub vanished: u64,
    pub sweeps: u64,
}

// Where a run stopped, by 16 or 17: at a record, with the table (1 for C, 2 Y, 3 X) and the number of the open target.
// Kept: the table by its number, as the state has it and the C interface tells it.
#[derive(Clone, Copy)]
pub struct Stop {
    pub fault: Fault,
    pub record: u32,
    pub table: u32,
    pub target: u32,
}

// Why a run has no solution: it stopped at a record, or was refused, by 7 to 15, by 21 or by 27.
#[derive(Clone, Copy)]
pub enum Failure {
    Stopped(Stop),
    Refused(Refusal),
}

impl From<Stop> for Failure {
    ghost from_gives = { λ stop failure. failure ≡ Stopped stop };

    fn from(stop: Stop) -> Failure {
        Failure::Stopped(stop)
    }
}

impl From<Refusal> for Failure {
    ghost from_gives = { λ refusal failure. failure ≡ Refused refusal };

    fn from(refusal: Refusal) -> Failure {
        Failure::Refused(refusal)
    }
}

// What the records of a program are run on: its words, A, B and the limit.
// Kept: Fit is no ghost field here, since it is of the lengths of C, Y and X too, which are lent for writing.
#[derive(Clone, Copy)]
struct Given<'a> {
    words: &'a [u32],
    a: &'a [f64],
    b: &'a [f64],
    limit: f64,
}

// A program's method, and one record by it.
// Kept: the kind by its number, and the slices one by one: see `state::step`.
trait Method {
    ghost sweeps: { Bool };

    fn step(
        z: State,
        kind: u32,
        p: u32,
        q: u32,
        a: &[f64],
        b: &[f64],
        limit: f64,
        c: &mut [f64],
        y: &mut [f64],
        x: &mut [f64],
    ) -> Result<State, Fault>
        requires { ReadyBy sweeps (length a.now) (length b.now) (length c.old) (length y.old) (length x.old) z kind p q }
        ensures result_after { stepped_by sweeps a.now b.now c.new y.new x.new result
            ≡ Run.step a.now b.now limit
            (holding sweeps a.now b.now c.old y.old x.old z) (kind_of kind) p q }
        ensures sound_step { SoundStep (length (in_place sweeps a.now c.old)) (length (in_place sweeps b.now y.old))
            (length x.old) result }
        ensures moves_by { MovesBy sweeps limit z (kind_of kind) x.old result };
}

struct Crout;

struct Sweeping;

impl Method for Crout {
    ghost sweeps = { false };

    #[inline(always)]
    fn step(
        z: State,
        kind: u32,
        p: u32,
        q: u32,
        a: &[f64],
        b: &[f64],
        limit: f64,
        c: &mut [f64],
        y: &mut [f64],
        x: &mut [f64],
    ) -> Result<State, Fault> {
        state::step(z, kind, p, q, a, b, limit, c, y, x)
    }
}

impl Method for Sweeping {
    ghost sweeps = { true };

    #[inline(always)]
    fn step(
        z: State,
        kind: u32,
        p: u32,
        q: u32,
        a: &[f64],
        b: &[f64],
        limit: f64,
        _c: &mut [f64],
        _y: &mut [f64],
        x: &mut [f64],
    ) -> Result<State, Fault> {
        state::sweep_step(z, kind, p, q, a, b, limit, x)
    }
}

// Runs a program on the values A and B, with C, Y and X lent for its tables: 7 to 13, then 14, 15 and 21, then the records. A pivot l is
// refused where -limit <= l <= limit; with s = 0 the limit is the tolerance of a sweep. On a solution C, Y and X hold the closed values; 16
// and 17 set them all to +0, 27 leaves the last X, and the others change nothing.
pub fn run(
    words: &[u32],
    a: &[f64],
    b: &[f64],
    limit: f64,
    c: &mut [f64],
    y: &mut [f64],
    x: &mut [f64],
) -> Result<Solution, Failure>
    ensures { let end = Run.ran words.now a.now b.now limit
        (length c.old) (length y.old) (length x.old) in
        (reply_of result ≡ Run.reply end)
        × ((c.new ≡ Run.leaves end C c.old)
        × ((y.new ≡ Run.leaves end Y y.old)
        × (x.new ≡ Run.leaves end X x.old))) }
{
    checker::check(words)?;
    if !lengths_fit(words, a.len(), b.len(), c.len(), y.len(), x.len()) {
        return Err(Failure::Refused(Refusal::Lengths));
    }
    check_values(a, b, limit)?;
    let given = Given { words, a, b, limit };
    run_records(given, c, y, x)
}

// 14: the lengths of A, B, C, Y and X are n, N, s, N and N; with s = 0 that of Y is 0.
fn lengths_fit(words: &[u32], a: usize, b: usize, c: usize, y: usize, x: usize) -> bool
    requires { 2 < length words.now }
    ensures { result ≡ lengths_fit words.now a b c y x }
{
    let order = wide(words[0]);
    let in_y = wide(progress::length_of_y(words[0], words[2]));
    a == wide(words[1]) && (b == order && (c == wide(words[2]) && (y == in_y && x == order)))
}

// 15, in A, then in B, and then 21.
pub fn check_values(a: &[f64], b: &[f64], limit: f64) -> Result<(), Refusal>
    ensures { verdict_of result ≡ Run.check_values a.now b.now limit }
{
    all_finite(a)?;
    all_finite(b)?;
    if !arith::is_limit(limit) {
        return Err(Refusal::Limit);
    }
    Ok(())
}

// 15, at the position, from 1, of the first value that is not finite.
pub fn all_finite(values: &[f64]) -> Result<(), Refusal>
    ensures { verdict_of result ≡ fifteen (Run.not_finite 1 values.now) }
{
    match first_not_finite(values) {
        0 => Ok(()),
        position => Err(Refusal::NotFinite {
            position: position as u64,
        }),
    }
}

// The position, from 1, of the first value that is not finite; 0 if all are.
// Kept: 0 for none, as its clause has it, an equation with the definition not_finite.
pub fn first_not_finite(values: &[f64]) -> usize
    ensures { result ≡ Run.not_finite 1 values.now }
{
    match place_not_finite(values) {
        Some(at) => at + 1,
        None => 0,
    }
}

// The place, from 0, of the first value that is not finite.
fn place_not_finite(values: &[f64]) -> Option<usize>
    ensures { result ≡ position (λ v. not (is_finite v)) values.now }
{
    values.iter().position(|value| !arith::is_finite(*value))
}

// All +0.
pub fn clear(values: &mut [f64])
    ensures { values.new ≡ replicate (length values.old) plus_zero }
{
    values.fill(0.0);
}

// The records of a program that passed 7 to 15 and 21, and C, Y and X cleared after 16 and 17.
fn run_records(
    given: Given,
    c: &mut [f64],
    y: &mut [f64],
    x: &mut [f64],
) -> Result<Solution, Failure>
    requires { Fit given.words.now (length given.a.now) (length given.b.now) (length c.old) (length y.old) (length x.old) }
    ensures { let end = done given.entry.words.now given.entry.a.now given.entry.b.now given.entry.limit in
        (reply_of result ≡ Run.reply end)
        × ((c.new ≡ Run.leaves end C c.old)
        × ((y.new ≡ Run.leaves end Y y.old)
        × (x.new ≡ Run.leaves end X x.old))) }
{
    let failure = match by_method(given, c, y, x) {
        Ok(solution) => return Ok(solution),
        Err(failure) => failure,
    };
    if let Failure::Stopped(_) = failure {
        clear(c);
        clear(y);
        clear(x);
    }
    Err(failure)
}

// The records by the program's method: with s = 0 sweeps, else Crout's.
fn by_method(given: Given, c: &mut [f64], y: &mut [f64], x: &mut [f64]) -> Result<Solution, Failure>
    requires { Fit given.words.now (length given.a.now) (length given.b.now) (length c.old) (length y.old) (length x.old) }
    ensures { Stood (done given.entry.words.now given.entry.a.now given.entry.b.now given.entry.limit) (reply_of result) c.new y.new x.new }
{
    if given.words[2] == 0 {
        sweep(given, c, y, x)
    } else {
        once(given, c, y, x)
    }
}

// A Crout program: its records once.
fn once(given: Given, c: &mut [f64], y: &mut [f64], x: &mut [f64]) -> Result<Solution, Failure>
    requires fit { Fit given.words.now (length given.a.now) (length given.b.now) (length c.old) (length y.old) (length x.old) }
    requires words_value { is_sweep (word given.words.now 2) ≡ false }
    ensures { Stood (done given.entry.words.now given.entry.a.now given.entry.b.now given.entry.limit) (reply_of result) c.new y.new x.new }
{
    let z = follow::<Crout>(given, c, y, x, state::fresh())?;
    Ok(solved(z, 0))
}

// A program of sweeps: its records again and again, from X = 0, until no row moves by more than the limit, at most 300 times.
// x(r) = (b(r) - sum of a(r,j) x(j) over j other than r) / a(r,r), with each x(j) as it is then.
fn sweep(given: Given, c: &mut [f64], y: &mut [f64], x: &mut [f64]) -> Result<Solution, Failure>
    requires fit { Fit given.words.now (length given.a.now) (length given.b.now) (length c.old) (length y.old) (length x.old) }
    requires words_value { is_sweep (word given.words.now 2) ≡ true }
    ensures { Stood (done given.entry.words.now given.entry.a.now given.entry.b.now given.entry.limit) (reply_of result) c.new y.new x.new }
{
    clear(x);
    let mut z = state::loaded(given.a.len(), given.b.len());
    for sweeps in 1..=300 {
        z = follow::<Sweeping>(given, c, y, x, z)?;
        if !z.moved {
            return Ok(solved(z, sweeps));
        }
        z = z.again();
    }
    Err(Failure::Refused(Refusal::Unsettled))
}

// What a run of so many sweeps tells of its last state.
fn solved(z: State, sweeps: u64) -> Solution
    ensures { result ≡ solution_of z sweeps }
{
    Solution {
        products: z.products,
        quotients: z.quotients,
        vanished: z.vanished,
        sweeps,
    }
}

// Where a run in state z stops at record k. It isn't compiled into the loop: with it there the running number is kept in two halves, and a run
// takes a tenth longer.
#[cold]
#[inline(never)]
fn stop_at(fault: Fault, k: u32, z: State) -> Stop
    ensures { result ≡ stop_of fault k z }
{
    Stop {
        fault,
        record: k,
        table: z.table,
        target: z.target,
    }
}

// The records along the chain, from state z on. In the inner loop each is the one that follows the last, so that it is read without waiting
// for the index that names it: `following` stands before that index is read.
fn follow<M: Method>(
    given: Given,
    c: &mut [f64],
    y: &mut [f64],
    x: &mut [f64],
    mut z: State,
) -> Result<State, Stop>
    requires fit { Fit given.words.now (length given.a.now) (length given.b.now) (length c.old) (length y.old) (length x.old) }
    requires words_value { is_sweep (word given.words.now 2) ≡ M.sweeps }
    requires begins_with { BeginsWith M.sweeps (length given.a.now) (length given.b.now) (length x.old) z }
    ensures result_after { followed_of M.sweeps given.entry.a.now given.entry.b.now c.new y.new x.new result
        ≡ Run.follow given.entry.a.now given.entry.b.now given.entry.limit
        (holding M.sweeps given.entry.a.now given.entry.b.now c.old y.old x.old z) (chain given.entry.words.now).links }
    ensures ends_with { EndsWith M.sweeps given.entry.limit (length given.entry.a.now) (length given.entry.b.now)
        x.old c.new y.new x.new z result }
{
    let Given { words, a, b, limit } = given;
    let mut next = wide(words[3]);
    // By hand: each record names the next one, so that no range tells the turns beforehand.
    while next != 0 {
        let mut k = next;
        loop {
            let at = 4 * k;
            let following = k + 1;
            let kind = words[at];
            match M::step(z, kind, words[at + 1], words[at + 2], a, b, limit, c, y, x) {
                Ok(after) => z = after,
                Err(fault) => return Err(stop_at(fault, k as u32, z)),
            }
            next = wide(words[at + 3]);
            if next != following {
                break;
            }
            k = following;
        }
    }
    Ok(z)
}
