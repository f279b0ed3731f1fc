// Tables of lengths between the marks of a graph before the first midpoint: zero from each mark to itself, the gaps of the
// rules, else no path.
ghost use Rattle.std.specs.Prelude.{◌≡◌, ◌+◌, ◌*◌, ◌<◌, ◌≤◌, length};
ghost use Rattle.graph.specs.Distances.{table_entry};
ghost use Rattle.graph.specs.Filling.{filled, diagonal, raised, raised_all, begun};

use crate::graph::Graph;
use lengths::length::Length;
use rules::rule::Rule;

// Each method below asks that the table is long enough. A struct that held the table would have to promise of each method
// that it keeps the marks and the memory that it was lent, which is more to read than the one `requires`.

// Sets the first `count` entries of a table to a length.
pub(crate) fn fill<L: Copy>(count: usize, value: L, table: &mut [L])
    requires { count ≤ length table.old }
    ensures { table.new ≡ filled count value table.old }
{
    for entry in &mut table[..count] {
        *entry = value;
    }
}

impl<L: Length> Graph<'_, L> {
    // The place of the entry from one mark to another. The tables of distances that are reduced have their own: shared it would be public,
    // and nothing public may ask that the marks be below their number.
    pub(crate) fn place(&self, from: usize, to: usize) -> usize
        requires { (from < self.now.marks) × (to < self.now.marks) }
        ensures is { result ≡ from * self.now.marks + to }
        ensures inside { result < self.now.marks * self.now.marks }
    {
        from * self.marks + to
    }

    // The entry from one mark to another.
    pub(crate) fn entry(&self, table: &[L], from: usize, to: usize) -> L
        requires below { (from < self.now.marks) × (to < self.now.marks) }
        requires long { self.now.marks * self.now.marks ≤ length table.now }
        ensures { result ≡ table_entry L.kind table.now self.now.marks from to }
    {
        let at = self.place(from, to);
        table[at]
    }

    // Sets the entry from each mark to itself to zero. These entries stand in different rows, so no slice holds them.
    #[tactic(auto, unfolding(crate::specs::Filling::diagonal))]
    fn zero_diagonal(&self, table: &mut [L])
        requires { self.now.marks * self.now.marks ≤ length table.old }
        ensures { table.new ≡ diagonal L.kind self.now.marks self.now.marks table.old }
    {
        for i in 0..self.marks {
            let at = self.place(i, i);
            table[at] = L::zero();
        }
    }

    // Raises the entry between the marks of a rule to its gap, unless it is larger.
    #[tactic(auto, unfolding(crate::specs::Filling::raised))]
    fn raise(&self, rule: Rule<L>, table: &mut [L])
        requires below { (rule.from < self.now.marks) × (rule.to < self.now.marks) }
        requires long { self.now.marks * self.now.marks ≤ length table.old }
        ensures { table.new ≡ raised L.kind self.now.marks rule table.old }
    {
        let at = self.place(rule.from as usize, rule.to as usize);
        let held = table[at];
        if held.at_most(rule.gap) {
            table[at] = rule.gap;
        }
    }

    // Raises the entries of a table to the gaps of the rules.
    #[tactic(auto, unfolding(crate::specs::Filling::raised_all))]
    fn raise_all(&self, table: &mut [L])
        requires { self.now.marks * self.now.marks ≤ length table.old }
        ensures { table.new ≡ raised_all L.kind self.now.marks self.now.rules.now table.old }
    {
        for listed in self.rules {
            self.raise(listed.rule, table);
        }
    }

    // The table before the first midpoint.
    #[tactic(auto, unfolding(crate::specs::Filling::begun))]
    pub(crate) fn begin(&self, table: &mut [L])
        requires { self.now.marks * self.now.marks ≤ length table.old }
        ensures { table.new ≡ begun L.kind self.now.marks self.now.rules.now table.old }
    {
        // The opposite of the far length stands for no path: the table is the caller's, and has lengths alone.
        fill(self.marks * self.marks, L::far().opposite(), table);
        self.zero_diagonal(table);
        self.raise_all(table);
    }
}
