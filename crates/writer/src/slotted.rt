// A plan with its slots: what the writer reads.
ghost use Rattle.writer.specs.Line.{Ready};

// The order, the plan, the work numbers with the slot of each held place, and the notes of rows and columns: none is held before the noted column
// or row.
// Kept: rows and columns as two slices, since write takes them of any length that Prepared allows; &Firsts would ask for 601 of each.
#[derive(Clone, Copy)]
pub struct Slotted<'a> {
    pub n: u32,
    pub plan: &'a [u32],
    pub work: &'a [u32],
    pub rows: &'a [u32],
    pub columns: &'a [u32],
    pub ghost ready: { Ready n plan.now work.now rows.now columns.now },
}
