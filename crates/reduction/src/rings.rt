// Rings: each mark of a group to the next, the last to the first.
ghost use Rattle.std.specs.Prelude.{◌≡◌, ◌+◌, ◌<◌, ◌≤◌};
ghost use Rattle.std.specs.List.{flat_map};
ghost use Rattle.reduction.specs.Told.{told};
ghost use Rattle.reduction.specs.Reduction.{ring, group, leaders};
ghost use Rattle.reduction.specs.Laying.{Lays};

use crate::leading::Leaders;
use crate::listing::Laying;
use crate::table::Table;
use lengths::length::Length;

impl<L: Length> Table<'_, L> {
    // Lays the ring of a leader's group, if that has two or more marks.
    fn put_ring(&self, leader: usize, laying: &mut Laying<L>)
        requires below { leader < self.now.marks }
        requires counted { laying.old.count ≤ 500_000 }
        ensures most { laying.new.count ≤ laying.old.count + 300 }
        ensures lays { let d = told L.kind self.now in Lays (ring L.kind d (group L.kind d self.now.marks leader)) laying.old laying.new }
    {
        // The first and the last mark of the group so far. Marks are tested in the loop: a loop over a filter, with its closure,
        // gets no proof in a generic function.
        let mut ends: Option<(usize, usize)> = None;
        for mark in 0..self.marks {
            if !self.tied(leader, mark) {
                continue;
            }
            ends = match ends {
                None => Some((mark, mark)),
                Some((first, last)) => {
                    laying.put(self.rule(last, mark));
                    Some((first, mark))
                }
            };
        }
        let Some((first, last)) = ends else {
            return;
        };
        if first != last {
            laying.put(self.rule(last, first));
        }
    }
}

impl<L: Length> Leaders<'_, L> {
    // Lays the rings of all groups, by rising leader.
    pub(crate) fn put_rings(&self, laying: &mut Laying<L>)
        requires { laying.old.count ≡ 0 }
        ensures most { laying.new.count ≤ 76_800 }
        ensures lays { let d = told L.kind self.now.table in Lays (flat_map (λ a. ring L.kind d (group L.kind d self.now.table.marks a)) (leaders L.kind d self.now.table.marks)) laying.old laying.new }
    {
        for leader in 0..self.table.marks {
            if self.leads(leader) {
                self.table.put_ring(leader, laying);
            }
        }
    }
}
