// Whether the rooms numbered t and t + 1 are kept exchanged: document 02, A.12. Of all batches two alone change, t and t + 1.
#![tactic(auto)]

ghost use Rattle.std.specs.Prelude.{◌≡◌, true, false, not, cond, suc, ◌+◌, ◌-◌, ◌≤◌, ltb, get_or};
ghost use Rattle.model.specs.Label;
ghost use Rattle.model.specs.Numbering.{exchanged, tried};
ghost use Rattle.model.proofs.Labels.{Inside};
ghost use Rattle.model.proofs.Reach.{reach};
ghost use Rattle.model.proofs.Exchanged;
ghost use Rattle.exchange.specs.Stood.{Stood, Neighbours, Beyond, Counts, second_line, linked as stood_linked};
ghost use Rattle.slots.specs.Batch.{row_of, column_of};

use numbers::wide;
use slots::Firsts;
use slots::lines::{column_of, row_of};

// Slots of two lines in the places past t + 1: what they are, and what they would be after the exchange.
#[derive(Clone, Copy)]
pub struct Past {
    pub before: u32,
    pub after: u32,
}

// A trial: a plan under the numbering that is kept so far, with its slots in the work numbers, and the first of the two rooms.
#[derive(Clone, Copy)]
pub struct Trial<'a> {
    pub n: u32,
    pub plan: &'a [u32],
    pub numbering: &'a [u32],
    pub work: &'a [u32],
    pub firsts: &'a Firsts,
    pub t: u32,
    pub ghost stood: { Stood n plan.now numbering.now work.now firsts.now.rows firsts.now.columns },
    pub ghost neighbours: { Neighbours n t },
}

impl<'a> Trial<'a> {
    ghost use Rattle.exchange.specs.Under.{plan_of};

    // Whether the plan with both rooms exchanged is accepted and has fewer slots.
    pub fn improves(&self) -> bool
        ensures { tried self.now.n self.now.plan.now self.now.t self.now.numbering.now ≡ cond result (exchanged self.now.numbering.now self.now.t) self.now.numbering.now }
    {
        let over = self.is_held(self.t, self.t + 1);
        let under = self.is_held(self.t + 1, self.t);
        if !self.is_accepted(over, under) {
            return false;
        }
        let down = self.count_past(false, over, under);
        let right = self.count_past(true, under, over);
        down.after + right.after < down.before + right.before
    }

    // Whether the plan with both rooms exchanged misses no pivot: it has all others, and t + 1's would stand without room t.
    fn is_accepted(&self, over: bool, under: bool) -> bool
        requires over_value { over ≡ stood_linked self.now.n (plan_of self.now) self.now.t false }
        requires under_value { under ≡ stood_linked self.now.n (plan_of self.now) self.now.t true }
        ensures { result ≡ reach self.now.n (plan_of self.now) (self.now.t - 1) (suc self.now.t) (suc self.now.t) }
    {
        !(under & over) || self.is_older(self.t + 1, self.t + 1)
    }

    // Whether a place of the table is held.
    fn is_held(&self, i: u32, j: u32) -> bool
        requires { Inside self.now.n i j }
        ensures { result ≡ ltb 0 (get_or self.now.work.now (Label.label self.now.n i j - 1) 0) }
    {
        0 < self.work[wide(labels::label(self.n, i, j) - 1)]
    }

    // Whether a place that is held would be without room t: it is in the plan, or the smallest h between its row and its column is below t.
    fn is_older(&self, i: u32, j: u32) -> bool
        requires { Beyond self.now.n (plan_of self.now) self.now.t i j }
        ensures { result ≡ reach self.now.n (plan_of self.now) (self.now.t - 1) i j }
    {
        let row = self.numbering[wide(i - 1)];
        let column = self.numbering[wide(j - 1)];
        plans::is_planned(self.n, self.plan, row, column)
            || plans::between(self.n, self.work, self.firsts, i, j) < self.t
    }

    // The column of each room below both or, across, its row right of both.
    // Kept: across as a bool, as row_of and column_of take it.
    fn count_past(&self, across: bool, linked: bool, back: bool) -> Past
        requires linked_value { linked ≡ stood_linked self.now.n (plan_of self.now) self.now.t across }
        requires back_value { back ≡ stood_linked self.now.n (plan_of self.now) self.now.t (not across) }
        ensures { Counts self.now.n (plan_of self.now) self.now.t across result }
    {
        let t = self.t;
        let first = self.line_start(across, t);
        let second = self.line_start(across, t + 1);
        let mut before = 0;
        let mut after = 0;
        // before = sum of a(k) + (b(k) or a(k) and linked), after = sum of b(k) + (a(k) or b(k) and back), k = t + 2 .. n: a(k) is held in the line
        // of t, and b(k) would be in that of t + 1 without room t
        for k in t + 2..=self.n {
            let a = 0 < self.work[first + wide(k - t)];
            let mut b = 0 < self.work[second + wide(k - t) - 1];
            // room t alone can hold it only where t's line has a place there too and the rooms are linked
            if linked & a & b {
                b = self.stays(across, k);
            }
            before += pair(a, b, linked);
            after += pair(b, a, back);
        }
        Past { before, after }
    }

    // Where m's line starts: the index of its k-th place's work number is k - m more, m < k.
    fn line_start(&self, across: bool, m: u32) -> usize
        requires { (1 ≤ m) × (m ≤ self.now.n) }
        ensures { suc result ≡ Label.label self.now.n m m + cond across (self.now.n - m) 0 }
    {
        let pivot = wide(labels::label(self.n, m, m) - 1);
        if across {
            pivot + wide(self.n - m)
        } else {
            pivot
        }
    }

    // Whether the k-th place of t + 1's line, which is held, would be without room t.
    fn stays(&self, across: bool, k: u32) -> bool
        requires { Beyond self.now.n (plan_of self.now) self.now.t (row_of across (suc self.now.t) k) (column_of across (suc self.now.t) k) }
        ensures { result ≡ second_line self.now.n (plan_of self.now) self.now.t across k }
    {
        self.is_older(
            row_of(across, self.t + 1, k),
            column_of(across, self.t + 1, k),
        )
    }
}

// Slots of two places, the second held also through the first where the rooms are linked.
fn pair(first: bool, second: bool, linked: bool) -> u32
    ensures { (result ≡ Exchanged.pair first second linked) × (result ≤ 2) }
{
    u32::from(first) + u32::from(second | (first & linked))
}
