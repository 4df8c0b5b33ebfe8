// A row of 64-bit words, low word first, as one number: adding to it and subtracting from it with carry. Document 02, A.4.
#![tactic(auto)]

ghost use Rattle.std.specs.Prelude.{◌≡◌, ◌+◌, ◌*◌, ◌^◌, ◌<◌, ◌≤◌, length};
ghost use Rattle.std.specs.Int.{from_bool};
ghost use Rattle.model.specs.Residual.{joined64};
ghost use Rattle.sums.specs.Added.{Changed, Carrying, three_at};

use digits::Wide;

// A number of two words, shifted, more or, minus, less: words = words ± (low + 2^64 high) 2^shift.
// Kept: the sign as a bool: Changed, which this clause names, takes it so.
pub fn change_wide(words: &mut [u64], shift: u32, wide: Wide, minus: bool)
    requires { (length words.old ≡ 66) × (shift ≤ 4095) }
    ensures { Changed minus words.old ((wide.low + 2 ^ 64 * wide.high) * 2 ^ shift) words.new }
{
    let at = (shift / 64) as usize;
    // three words from that index on
    let by = 1 << (shift % 64);
    let (low, more) = wide.low.carrying_mul(by, 0);
    let (middle, high) = wide.high.carrying_mul(by, more);
    let carry = change_three(words, at, low, middle, high, minus);
    carry_on(words, at + 3, carry, minus);
}

// Three words in a row more or less by a number of three words: whether one is carried on to the word after them.
fn change_three(words: &mut [u64], at: usize, low: u64, middle: u64, high: u64, minus: bool) -> bool
    requires { at + 2 < length words.old }
    ensures { Carrying minus (joined64 words.old) (three_at at low middle high) (joined64 words.new) (from_bool result * 2 ^ (64 * (at + 3))) }
{
    let (first, carry) = changed(words[at], low, false, minus);
    words[at] = first;
    let (second, carry) = changed(words[at + 1], middle, carry, minus);
    words[at + 1] = second;
    let (third, carry) = changed(words[at + 2], high, carry, minus);
    words[at + 2] = third;
    carry
}

// One that is carried on to the word at an index: words = words ± carry 2^(64 at).
fn carry_on(words: &mut [u64], at: usize, mut carry: bool, minus: bool)
    requires { at ≤ length words.old }
    ensures { Changed minus words.old (from_bool carry * 2 ^ (64 * at)) words.new }
{
    for word in &mut words[at..] {
        if !carry {
            break;
        }
        (*word, carry) = changed(*word, 0, carry, minus);
    }
}

// One word more or less by another and by what is carried on to it: word' = word ± (by + carry) ∓ 2^64 carry'.
fn changed(word: u64, by: u64, carry: bool, minus: bool) -> (u64, bool)
    ensures { Carrying minus word (by + from_bool carry) result.0 (2 ^ 64 * from_bool result.1) }
{
    if minus {
        word.borrowing_sub(by, carry)
    } else {
        word.carrying_add(by, carry)
    }
}
