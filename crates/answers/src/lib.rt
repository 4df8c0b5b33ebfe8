// Answers as numbers: a refusal and its detail as one, and three or four further numbers in a lent array.
#![tactic(auto)]

ghost use Rattle.std.specs.Prelude.{◌≡◌, ◌<◌, ◌^◌, List, ℕ, ◌∷◌, [], IfErr};
ghost use Rattle.model.specs.Boundary.{refusal_number, costs_number, reply_number, reply_numbers, limit_numbers};
ghost use Rattle.refusal.specs.Named.{refused_number};
ghost use Rattle.costs.specs.Costed.{costs_of};
ghost use Rattle.runner.specs.Outcome.{reply_of};
ghost use Rattle.answers.specs.Numbers.{answer_number, answer_numbers};

use compiler::Written;
use ordering::Renumbered;
use refusal::Refusal;
use runner::{Failure, Solution};

// What a call tells beside its answer, as three numbers.
pub trait Told {
    ghost told: { Self → List ℕ };

    fn numbers(self) -> [u64; 3]
        ensures { result ≡ told self };
}

// A program's slots, products and records.
impl Told for Written {
    ghost told = { λ w. w.slots ∷ w.products ∷ w.records ∷ [] };

    fn numbers(self) -> [u64; 3] {
        let Written {
            slots,
            products,
            records,
        } = self;
        [u64::from(slots), u64::from(products), u64::from(records)]
    }
}

// A numbering's slots, the trials made and the distance.
impl Told for Renumbered {
    ghost told = { λ r. r.slots ∷ r.trials ∷ r.distance ∷ [] };

    fn numbers(self) -> [u64; 3] {
        let Renumbered {
            slots,
            trials,
            distance,
        } = self;
        [u64::from(slots), u64::from(trials), u64::from(distance)]
    }
}

// The entries of a file.
impl Told for u64 {
    ghost told = { λ entries. entries ∷ 0 ∷ 0 ∷ [] };

    fn numbers(self) -> [u64; 3] {
        [self, 0, 0]
    }
}

// The entries of a path.
impl Told for u32 {
    ghost told = { λ entries. entries ∷ 0 ∷ 0 ∷ [] };

    fn numbers(self) -> [u64; 3] {
        [u64::from(self), 0, 0]
    }
}

// A refusal's number times 2^32 plus its detail.
pub fn refusal(number: u32, detail: u64) -> u64
    requires { refusal_number number detail < 2 ^ 64 }
    ensures { result ≡ refusal_number number detail }
{
    u64::from(number) * 4294967296 + detail
}

// The same of a refusal by name.
pub fn refused(refusal: Refusal) -> u64
    requires { refused_number refusal < 2 ^ 64 }
    ensures { result ≡ refused_number refusal }
{
    crate::refusal(refusal.number(), refusal.detail())
}

// A check's answer: 0, or its refusal.
pub fn verdict_answer(answer: Result<(), Refusal>) -> u64
    requires { IfErr answer (λ r. refused_number r < 2 ^ 64) }
    ensures { result ≡ answer_number answer }
{
    match answer {
        Ok(()) => 0,
        Err(refusal) => refused(refusal),
    }
}

// An answer that tells three numbers: 0 and these, or its refusal and zeros.
pub fn told_answer<T: Told>(answer: Result<T, Refusal>, out: &mut [u64; 3]) -> u64
    requires { IfErr answer (λ r. refused_number r < 2 ^ 64) }
    ensures number { result ≡ answer_number answer }
    ensures numbers { out.new ≡ answer_numbers T.told answer }
{
    match answer {
        Ok(told) => {
            *out = told.numbers();
            0
        }
        Err(refusal) => {
            *out = [0, 0, 0];
            refused(refusal)
        }
    }
}

// Whether a plan costs most: 1 if it does, 0 if not.
pub fn costs_answer(answer: Result<bool, Refusal>) -> u64
    requires { costs_number (costs_of answer) < 2 ^ 64 }
    ensures { result ≡ costs_number (costs_of answer) }
{
    match answer {
        Ok(most) => u64::from(most),
        Err(refusal) => refused(refusal),
    }
}

// A run's answer: products, quotients, products that vanished and sweeps; after 16 and 17 the table and the target's number, the record
// being the detail.
pub fn limit_answer(answer: Result<Solution, Failure>, out: &mut [u64; 4]) -> u64
    requires { reply_number (reply_of answer) < 2 ^ 64 }
    ensures { (result ≡ reply_number (reply_of answer)) × (out.new ≡ limit_numbers (reply_of answer)) }
{
    match answer {
        Ok(
            Solution {
                products,
                quotients,
                vanished,
                sweeps,
            },
        ) => {
            *out = [products, quotients, vanished, sweeps];
            0
        }
        Err(Failure::Stopped(stop)) => {
            *out = [u64::from(stop.table), u64::from(stop.target), 0, 0];
            refusal(stop.fault.number(), u64::from(stop.record))
        }
        Err(Failure::Refused(refusal)) => {
            *out = [0, 0, 0, 0];
            refused(refusal)
        }
    }
}

// The same with release 1's three numbers: the first two, and 0.
// Kept: the C interface has an array of four numbers for one call and of three for the other; this hands on the first two.
pub fn run_answer(answer: Result<Solution, Failure>, out: &mut [u64; 3]) -> u64
    requires { reply_number (reply_of answer) < 2 ^ 64 }
    ensures { (result ≡ reply_number (reply_of answer)) × (out.new ≡ reply_numbers (reply_of answer)) }
{
    let mut numbers = [0u64; 4];
    let number = limit_answer(answer, &mut numbers);
    *out = [numbers[0], numbers[1], 0];
    number
}
