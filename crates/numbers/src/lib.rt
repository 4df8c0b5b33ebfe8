// Small functions on numbers, for all crates above.
#![tactic(auto)]

ghost use Rattle.std.specs.Prelude.{◌≡◌};
ghost use Rattle.model.specs.Label;

// A number as an index.
// Kept: Rust and Rattle have no `From` between `usize` and 32 or 64 bits; the casts of lengths and places elsewhere stand for that too.
pub fn wide(x: u32) -> usize
    ensures { result ≡ x }
{
    x as usize
}

// Whether k lies in 1..n.
pub fn within(k: u32, n: u32) -> bool
    ensures { result ≡ Label.within k n }
{
    (1..=n).contains(&k)
}
