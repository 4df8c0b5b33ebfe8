// Labels of places and places of labels: document 01, "Places and labels".
#![tactic(auto)]

ghost use Rattle.std.specs.Prelude.{◌≡◌, cond, ◌+◌, ◌-◌, ◌*◌, ◌≤◌, ◌<◌};
ghost use Rattle.model.specs.Label.{is_label, sought};
ghost use Rattle.model.specs.Label;
ghost use Rattle.model.specs.Boundary.{label_number};
ghost use Rattle.model.proofs.Labels.{Inside};
ghost use Rattle.labels.specs.Located.{place_of, sought_of, placed};
ghost use Rattle.labels.specs.Batches.{Reaches, Holds};

use numbers::within;

// A batch of the table, column m from the diagonal down and then row m right of it: its number m, and the labels before it.
#[derive(Clone, Copy)]
pub struct Batch {
    pub number: u32,
    pub before: u32,
}

impl Batch {
    // The first: column 1 and row 1.
    pub const FIRST: Batch = Batch {
        number: 1,
        before: 0,
    };

    // The last label of the batch, in a table of order n.
    fn end(self, n: u32) -> u32
        requires { (self.number ≤ n) × (n ≤ 600) × (self.before ≤ 360000) }
        ensures { result ≡ self.before + (2 * (n - self.number) + 1) }
    {
        self.before + 2 * (n - self.number) + 1
    }
}

// A place of the table, by row and column.
#[derive(Clone, Copy)]
pub struct Entry {
    pub row: u32,
    pub column: u32,
}

// The label of (i, j) in a table of order n; 0 if any of the three is out of range.
// Kept: 0 for none, which the C interface answers, and the definition `label_number`.
#[tactic(auto, unfolding(model::specs::Boundary::label_number, model::specs::Label::is_place))]
pub fn label(n: u32, i: u32, j: u32) -> u32
    ensures { result ≡ label_number n i j }
{
    if within(n, 600) && within(i, n) && within(j, n) {
        label_within(n, i, j)
    } else {
        0
    }
}

// (2.8), for numbers in range.
fn label_within(n: u32, i: u32, j: u32) -> u32
    requires { (n ≤ 600) × ((0 < i) × (i ≤ n)) × ((0 < j) × (j ≤ n)) }
    ensures { result ≡ Label.label n i j }
{
    if j <= i {
        (j - 1) * (2 * n - j) + i
    } else {
        i * (2 * n - i) - n + j
    }
}

// The place of label k in a table of order n; none if it is out of range.
#[tactic(auto, unfolding(model::specs::Label::sought, model::specs::Label::is_label))]
pub fn place(n: u32, k: u32) -> Option<Entry>
    ensures { sought_of result ≡ sought n k }
{
    if within(n, 600) && within(k, n * n) {
        Some(place_within(n, k))
    } else {
        None
    }
}

// The place of a label in range.
fn place_within(n: u32, k: u32) -> Entry
    requires { ((0 < n) × (n ≤ 600)) × ((0 < k) × (k ≤ n * n)) }
    ensures { place_of result ≡ Label.place n k }
{
    place_in(n, k, batch_of(n, k, Batch::FIRST))
}

// The batch that has a label, sought from one that isn't past it.
pub fn batch_of(n: u32, k: u32, mut batch: Batch) -> Batch
    requires { ((n ≤ 600) × (k ≤ n * n)) × Reaches n k batch }
    ensures { Holds n k result }
{
    let mut end = batch.end(n);
    // By hand: the next batch begins where one ends, so a `for` over the numbers would have to count the labels before it beside.
    while end < k {
        batch = Batch {
            number: batch.number + 1,
            before: end,
        };
        end = batch.end(n);
    }
    batch
}

// The place of a label of a batch, in its column or in its row.
pub fn place_in(n: u32, k: u32, batch: Batch) -> Entry
    requires { (n ≤ 600) × Holds n k batch }
    ensures { Inside n result.row result.column × (Label.label n result.row result.column ≡ k) }
{
    let m = batch.number;
    let left = k - batch.before;
    let rows = n - m + 1;
    if left <= rows {
        Entry {
            row: m + left - 1,
            column: m,
        }
    } else {
        Entry {
            row: m,
            column: m + left - rows,
        }
    }
}

// The label of a label's place: the label again, 0 where it is out of range.
// Kept: 0 for none, as its clause has it.
pub fn label_again(n: u32, k: u32) -> u32
    ensures { result ≡ cond (is_label n k) k 0 }
{
    place(n, k).map_or(0, |at| label(n, at.row, at.column))
}

// The place of a place's label: the place again, none where it is out of range.
pub fn place_again(n: u32, i: u32, j: u32) -> Option<Entry>
    ensures { sought_of result ≡ placed n i j }
{
    place(n, label(n, i, j))
}
