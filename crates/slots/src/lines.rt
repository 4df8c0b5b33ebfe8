// Batch m's column from the diagonal down or, across, its row right of the diagonal; and the work numbers along it that are 0.
ghost use Rattle.std.specs.Prelude.{◌≡◌, ℕ, true, ◌+◌, ◌*◌, ◌<◌, ◌≤◌, eqb, length, take, drop};
ghost use Rattle.slots.specs.Batch.{row_of, column_of, first_of};
ghost use Rattle.slots.specs.Zeros.{Zeros, FirstZeros, largest};

use numbers::wide;

// The row and the column of a line's t-th place, and the first t.
// Kept: across as a bool: row_of, column_of and first_of of specs/Batch.antt, which these clauses name, take it so.
pub fn row_of(across: bool, m: u32, t: u32) -> u32
    ensures { result ≡ row_of across m t }
{
    if across { m } else { t }
}

pub fn column_of(across: bool, m: u32, t: u32) -> u32
    ensures { result ≡ column_of across m t }
{
    if across { t } else { m }
}

pub fn first_of(across: bool, m: u32) -> u32
    requires { m ≤ 600 }
    ensures { result ≡ first_of across m }
{
    if across { m + 1 } else { m }
}

// How many work numbers from an index on are 0, before one that isn't, of so many at the most: first by sixteen, and then one by one.
pub fn zeros(work: &[u32], from: usize, most: u32) -> u32
    requires { (from + most ≤ length work.now) × (from ≤ 360000) }
    ensures { Zeros work.now from most result }
{
    let line = &work[from..from + wide(most)];
    let mut k = 0;
    // By hand: `chunks_exact(16).take_while(is_zero).count()` was tried, and its proof did not close.
    while k + 16 <= line.len() && is_zero(&line[k..k + 16]) {
        k += 16;
    }
    (k + zeros_first(&line[k..])) as u32
}

// How many numbers at the front are 0.
fn zeros_first(line: &[u32]) -> usize
    ensures { FirstZeros line.now result }
{
    line.iter().take_while(|&&number| number == 0).count()
}

// Whether numbers are all 0. The largest of them is asked, so that the loop has no branch.
fn is_zero(block: &[u32]) -> bool
    ensures { result ≡ eqb (largest block.now) 0 }
{
    block.iter().fold(0, |most, &number| most.max(number)) == 0
}
