// Pairs of leaders that no third leader splits.
ghost use Rattle.std.specs.Prelude.{◌+◌, ◌<◌, ◌≤◌};
ghost use Rattle.std.specs.List.{flat_map};
ghost use Rattle.reduction.specs.Told.{told};
ghost use Rattle.reduction.specs.Reduction.{leaders, pairs_from};
ghost use Rattle.reduction.specs.Laying.{Lays};

use crate::leading::Leaders;
use crate::listing::Laying;
use lengths::length::Length;

impl<L: Length> Leaders<'_, L> {
    // Lays the rules from a leader to others, unless a third leader splits the distance.
    fn put_pairs(&self, from: usize, laying: &mut Laying<L>)
        requires below { from < self.now.table.marks }
        requires counted { laying.old.count ≤ 500_000 }
        ensures most { laying.new.count ≤ laying.old.count + 300 }
        ensures lays { Lays (pairs_from L.kind (told L.kind self.now.table) self.now.table.marks from) laying.old laying.new }
    {
        // Marks are tested in the loop: a loop over a filter, with its closure, gets no proof in a generic function.
        let marks = self.table.marks;
        'pairs: for to in 0..marks {
            if !self.may_pair(from, to) {
                continue;
            }
            for third in 0..marks {
                if self.parts(from, to, third) {
                    continue 'pairs;
                }
            }
            laying.put(self.table.rule(from, to));
        }
    }

    // Lays the pairs from all leaders, by rising leader. The rings have a loop of their own: a step passed as a closure would need the
    // same clauses and bounds.
    pub(crate) fn put_all_pairs(&self, laying: &mut Laying<L>)
        requires { laying.old.count ≤ 76_800 }
        ensures { let d = told L.kind self.now.table in Lays (flat_map (pairs_from L.kind d self.now.table.marks) (leaders L.kind d self.now.table.marks)) laying.old laying.new }
    {
        for leader in 0..self.table.marks {
            if self.leads(leader) {
                self.put_pairs(leader, laying);
            }
        }
    }
}
