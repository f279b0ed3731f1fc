// A table of distances: which marks are tied, which lead, and which pairs a third mark splits.
ghost use Rattle.std.specs.Prelude.{◌≡◌, ◌+◌, ◌*◌, ◌<◌, ◌≤◌, false, ◌&&◌, length, MatchOption, nat_lt};
ghost use Rattle.reduction.specs.Reduction.{distance_rule, tied as is_tied, splits as is_split};
ghost use Rattle.reduction.specs.Listing.{leads as is_leader, reducible};

use crate::sums::{adds_up, meets};
use lengths::length::Length;
use rules::rule::Rule;

// Distances from each of at most 256 marks to each, mark by mark. Marks are numbers: a type for a mark of a table would have to name
// its table.
#[derive(Drop)]
pub(crate) struct Table<'t, L> {
    pub(crate) marks: usize,
    pub(crate) entries: &'t [L],
    ghost few: { marks ≤ 256 },
    ghost long: { marks * marks ≤ length entries.now },
}

impl<'t, L: Length> Table<'t, L> {
    ghost use Rattle.reduction.specs.Told.{told};

    // The entries as a table between so many marks, if they are within the limits.
    pub(crate) fn new(marks: usize, entries: &'t [L]) -> Option<Table<'t, L>>
        ensures { MatchOption result (reducible L.kind marks entries.now ≡ false) (λ table. (table.marks ≡ marks) × (table.entries.now ≡ entries.now)) }
    {
        if marks > 256 || entries.len() < marks * marks {
            return None;
        }
        Some(Table { marks, entries })
    }

    // The place of the entry from one mark to another. A graph has the like: shared it would be public, and nothing public may ask that the
    // marks be below their number.
    fn place(&self, from: usize, to: usize) -> usize
        requires { (from < self.now.marks) × (to < self.now.marks) }
        ensures is { result ≡ from * self.now.marks + to }
        ensures inside { result < length self.now.entries.now }
    {
        from * self.marks + to
    }

    // The distance from one mark to another, if a path leads there.
    #[tactic(auto, using(std::proofs::lemmas::List::get_or_default), unfolding(graph::specs::Distances::table_distance))]
    pub(crate) fn distance(&self, from: usize, to: usize) -> Option<L>
        requires { (from < self.now.marks) × (to < self.now.marks) }
        ensures { result ≡ told L.kind self.now from to }
    {
        let entry = self.entries[self.place(from, to)];
        // What stands for no path: the table is the caller's, and has lengths alone.
        let none = L::far().opposite();
        if entry.at_most(none) {
            None
        } else {
            Some(entry)
        }
    }

    // Whether two marks are tied: both distances exist and add to zero.
    #[tactic(auto, unfolding(crate::specs::Reduction::tied))]
    pub(crate) fn tied(&self, from: usize, to: usize) -> bool
        requires { (from < self.now.marks) × (to < self.now.marks) }
        ensures { result ≡ is_tied L.kind (told L.kind self.now) from to }
    {
        adds_up(self.distance(from, to), self.distance(to, from), L::zero())
    }

    // Whether a mark of the table is tied to no smaller one.
    pub(crate) fn leads(&self, mark: usize) -> bool
        ensures { result ≡ (nat_lt mark self.now.marks && is_leader L.kind self.now.marks self.now.entries.now mark) }
    {
        mark < self.marks && !(0..mark).any(|smaller| self.tied(mark, smaller))
    }

    // The rule from one mark to another with their distance as gap.
    #[tactic(auto, using(crate::proofs::Telling::gap_told), unfolding(crate::specs::Reduction::distance_rule))]
    pub(crate) fn rule(&self, from: usize, to: usize) -> Rule<L>
        requires { (from < self.now.marks) × (to < self.now.marks) }
        ensures { result ≡ distance_rule L.kind (told L.kind self.now) from to }
    {
        let gap = self.distance(from, to).unwrap_or(L::zero());
        Rule::minimum(from as u16, to as u16, gap)
    }

    // Whether a third mark splits the distance from one mark to another.
    #[tactic(auto, unfolding(crate::specs::Reduction::splits, crate::specs::Reduction::through))]
    pub(crate) fn splits(&self, from: usize, to: usize, third: usize) -> bool
        requires { (from < self.now.marks) × ((to < self.now.marks) × (third < self.now.marks)) }
        ensures { result ≡ is_split L.kind (told L.kind self.now) from to third }
    {
        if third == from || third == to {
            return false;
        }
        let first = self.distance(from, third);
        let second = self.distance(third, to);
        let whole = self.distance(from, to);
        meets(first, second, whole)
    }
}
