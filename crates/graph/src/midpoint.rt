// Longer ways over midpoints: each mark in turn is allowed between the ends of paths. Marks are numbers, and the entries of three pairs of
// them are used at once, so the loops are over numbers.
ghost use Rattle.std.specs.Prelude.{◌≡◌, ◌*◌, ◌<◌, ◌≤◌, length};
ghost use Rattle.graph.specs.Overs.{over_entry, RowUpto, Still, TableUpto, Overs};

use crate::graph::Graph;
use lengths::length::Length;

// An entry over a midpoint: the larger of what it holds and the lengths to and from the midpoint together.
// A missing length is told before anything is added.
#[tactic(auto, unfolding(crate::specs::Overs::over_entry))]
fn through<L: Length>(before: L, after: L, held: L) -> L
    ensures { result ≡ over_entry L.kind before after held }
{
    // What stands for no path: the table is the caller's, and has lengths alone.
    let none = L::far().opposite();
    if before.at_most(none) || after.at_most(none) {
        return held;
    }
    let sum = before.sum(after);
    if held.at_most(sum) { sum } else { held }
}

impl<L: Length> Graph<'_, L> {
    // One row of a table over a midpoint. The row of the midpoint is read while this one is written, and may be the same, so entries are
    // found by their marks and not lent as slices.
    fn over_row(&self, middle: usize, from: usize, table: &mut [L])
        requires below { (middle < self.now.marks) × (from < self.now.marks) }
        requires long { self.now.marks * self.now.marks ≤ length table.old }
        ensures { RowUpto L.kind self.now.marks middle from self.now.marks table.old table.new }
    {
        let before = self.entry(table, from, middle);
        for to in 0..self.marks {
            let after = self.entry(table, middle, to);
            let at = self.place(from, to);
            let held = table[at];
            table[at] = through(before, after, held);
        }
    }

    // All rows of a table over a midpoint.
    fn over_rows(&self, middle: usize, table: &mut [L])
        requires below { middle < self.now.marks }
        requires long { self.now.marks * self.now.marks ≤ length table.old }
        ensures { Still L.kind self.now.marks middle table.old → TableUpto L.kind self.now.marks middle self.now.marks table.old table.new }
    {
        for from in 0..self.marks {
            self.over_row(middle, from, table);
        }
    }

    // A table over every mark as midpoint.
    #[tactic(auto, unfolding(crate::specs::Overs::Overs))]
    pub(crate) fn over_marks(&self, table: &mut [L])
        requires { self.now.marks * self.now.marks ≤ length table.old }
        ensures { Overs L.kind self.now.marks self.now.marks table.old table.new }
    {
        for middle in 0..self.marks {
            self.over_rows(middle, table);
        }
    }
}
