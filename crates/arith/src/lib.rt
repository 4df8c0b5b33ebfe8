// One float operation, and how a value is read: document 01, "Dense Crout" and "Running"; document 02, A.1, A.5 and A.7.
// Each result is compared with the definition's bit for bit.
#![tactic(auto)]

ghost use Rattle.std.specs.Prelude.{◌≡◌, false, cond, ◌&&◌};
ghost use Rattle.model.specs.Arith as model;
ghost use Rattle.model.specs.Formula as formula;
ghost use Rattle.model.specs.Sweep.{moves_more};
ghost use Rattle.arith.specs.Answer.{answer_of, has_vanished};

// What one operation gives. A number that a product of two nonzero factors went into as zero has a case of its own: that product vanished.
// Kept: document 01 asks for this enum, with its two refusals (docs/SCOPE.md, "Each place and its form").
#[derive(Clone, Copy)]
pub enum Operation {
    Number(f64),
    Vanished(f64),
    Overflow,
    ZeroDivisor,
}

// Whether the value is a number: a number less itself is zero, and anything else less itself is a NaN,
// which no order holds of.
pub fn is_finite(value: f64) -> bool
    ensures { result ≡ model.is_finite value }
{
    value - value >= 0.0
}

pub fn is_zero(value: f64) -> bool
    ensures { result ≡ model.is_zero value }
{
    value == 0.0
}

// Whether a pivot is refused: -limit <= value <= limit, by value, so that a limit of either zero takes zeros alone.
pub fn is_small(limit: f64, value: f64) -> bool
    ensures { result ≡ model.is_small limit value }
{
    -limit <= value && value <= limit
}

// Whether the limit is one that a run takes: finite and not negative.
pub fn is_limit(limit: f64) -> bool
    ensures { result ≡ model.is_limit limit }
{
    is_finite(limit) && 0.0 <= limit
}

// The value with -0 as +0: +0 added to -0 is +0, and added to any other value it changes nothing.
pub fn read(value: f64) -> f64
    ensures { result ≡ model.clean value }
{
    value + 0.0
}

// A result that was read, as an answer.
fn answer(value: f64) -> Operation
    ensures answer { answer_of result ≡ cond (model.is_finite value) (model.number value) model.overflow }
    ensures vanished { has_vanished result ≡ false }
{
    if is_finite(value) {
        Operation::Number(value)
    } else {
        Operation::Overflow
    }
}

// Whether two factors that are not zero give zero. They are asked about only where their product is zero, which is rare.
fn vanishes(a: f64, b: f64) -> bool
    ensures { result ≡ model.vanishes a b }
{
    if is_zero(a * b) {
        !is_zero(a) && !is_zero(b)
    } else {
        false
    }
}

// A result that was read and into which the product of a and b went, as an answer.
fn product_answer(value: f64, a: f64, b: f64) -> Operation
    ensures answer { answer_of result ≡ cond (model.is_finite value) (model.number value) model.overflow }
    ensures vanished { has_vanished result ≡ (model.is_finite value && model.vanishes a b) }
{
    if is_finite(value) {
        if vanishes(a, b) {
            Operation::Vanished(value)
        } else {
            Operation::Number(value)
        }
    } else {
        Operation::Overflow
    }
}

pub fn product(a: f64, b: f64) -> Operation
    ensures answer { answer_of result ≡ model.product a b }
    ensures vanished { has_vanished result ≡ model.vanishes a b }
{
    product_answer(read(a * b), a, b)
}

// Only -0 - +0 is -0, so reading -b spares the result: a chain of differences waits for one addition each.
pub fn difference(a: f64, b: f64) -> Operation
    ensures answer { answer_of result ≡ model.difference a b }
    ensures vanished { has_vanished result ≡ false }
{
    answer(a + read(-b))
}

pub fn quotient(a: f64, b: f64) -> Operation
    ensures answer { answer_of result ≡ model.quotient a b }
    ensures vanished { has_vanished result ≡ false }
{
    if is_zero(b) {
        Operation::ZeroDivisor
    } else {
        answer(read(a / b))
    }
}

// A product and a difference with it, settled at once: no difference with an infinity or a NaN is a
// number, and a zero of either sign leaves the same. A product that is neither zero nor a NaN does not
// vanish, and a difference with it is never -0, so it passes with one test more.
pub fn less(acc: f64, a: f64, b: f64) -> Operation
    ensures answer { answer_of result ≡ formula.less acc a b }
    ensures vanished { has_vanished result ≡ (model.is_finite acc && model.vanishes a b) }
{
    let product = a * b;
    if product < 0.0 || 0.0 < product {
        answer(acc - product)
    } else {
        product_answer(acc + read(-product), a, b)
    }
}

// Whether an entry moves by more than the limit: new - old, rounded once; an overflow is more.
pub fn moves_more(limit: f64, old: f64, new: f64) -> bool
    ensures { result ≡ moves_more limit old new }
{
    match difference(new, old) {
        Operation::Number(by) | Operation::Vanished(by) => !is_small(limit, by),
        Operation::Overflow => true,
        Operation::ZeroDivisor => true,
    }
}
