// Leaders: the marks that are tied to no smaller one.
ghost use Rattle.std.specs.Prelude.{◌≡◌, ◌<◌, not, ◌&&◌, is_some, ◌==◌};
ghost use Rattle.reduction.specs.Reduction.{splits as is_split};
ghost use Rattle.reduction.specs.Listing.{leads as is_leader, Noted};

use crate::table::Table;
use lengths::length::Length;
use std::array;

// A table of distances, and a note for each of its marks that says whether it is a leader. There is no heap: the notes have room for
// the most marks that a table may have.
#[derive(Drop)]
pub(crate) struct Leaders<'t, L: Length> {
    pub(crate) table: Table<'t, L>,
    notes: [bool; 256],
    ghost noted: { Noted L.kind table.marks table.entries.now notes table.marks },
}

impl<'t, L: Length> Leaders<'t, L> {
    ghost use Rattle.reduction.specs.Told.{told};

    // The leaders of a table.
    pub(crate) fn new(table: Table<'t, L>) -> Leaders<'t, L>
        ensures marks { result.table.marks ≡ table.entry.marks }
        ensures entries { result.table.entries.now ≡ table.entry.entries.now }
    {
        let notes = array::from_fn(|mark| table.leads(mark));
        Leaders { table, notes }
    }

    // Whether a mark is a leader.
    pub(crate) fn leads(&self, mark: usize) -> bool
        requires { mark < self.now.table.marks }
        ensures { result ≡ is_leader L.kind self.now.table.marks self.now.table.entries.now mark }
    {
        self.notes[mark]
    }

    // Whether a mark is another leader that a path leads to.
    pub(crate) fn may_pair(&self, from: usize, to: usize) -> bool
        requires { (from < self.now.table.marks) × (to < self.now.table.marks) }
        ensures { result ≡ (is_leader L.kind self.now.table.marks self.now.table.entries.now to && (not (from == to) && is_some (told L.kind self.now.table from to))) }
    {
        self.leads(to) && from != to && self.table.distance(from, to).is_some()
    }

    // Whether a mark is a leader that splits the distance between two others.
    pub(crate) fn parts(&self, from: usize, to: usize, third: usize) -> bool
        requires { (from < self.now.table.marks) × ((to < self.now.table.marks) × (third < self.now.table.marks)) }
        ensures { result ≡ (is_leader L.kind self.now.table.marks self.now.table.entries.now third && is_split L.kind (told L.kind self.now.table) from to third) }
    {
        self.leads(third) && self.table.splits(from, to, third)
    }
}
