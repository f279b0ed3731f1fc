// Closed chains of last rules: from a mark back to the one that its last rule leaves, and on.
ghost use Rattle.std.specs.Prelude.{◌<◌};
ghost use Rattle.graph.specs.Outcome.{Comes, Found};

use crate::graph::Graph;
use lengths::length::Length;

// The index of the rule that last raised each mark, if one has: what holds during the rounds speaks of rules by their indices. An array,
// since the engine takes no memory of the heap.
pub(crate) type LastRules = [Option<usize>; 256];

// A closed chain of last rules: the smallest mark on it, how many rules it has, and the last rule of each mark.
#[derive(Drop)]
pub(crate) struct ClosedChain {
    pub(crate) mark: usize,
    pub(crate) count: usize,
    pub(crate) last: LastRules,
}

impl<L: Length> Graph<'_, L> {
    // After how many last rules the chain from a mark comes back to it, if it does.
    // At a smaller mark it stops: were that on a closed chain, it would have been found from there.
    fn returns_after(&self, last: &LastRules, mark: usize) -> Option<usize>
        requires { mark < self.now.marks }
        ensures { Comes L.kind self.now.marks self.now.rules.now last.now mark result }
    {
        let mut at = mark;
        for step in 0..self.marks {
            let index = last[at]?;
            at = self.rules.get(index)?.rule.from as usize;
            if at == mark {
                return Some(step + 1);
            }
            if at < mark {
                return None;
            }
        }
        None
    }

    // The smallest mark on a closed chain of last rules, and how many rules the chain has.
    pub(crate) fn closed_chain(&self, last: &LastRules) -> Option<(usize, usize)>
        ensures { Found L.kind self.now.marks self.now.rules.now last.now result }
    {
        (0..self.marks).find_map(|mark| self.returns_after(last, mark).map(|count| (mark, count)))
    }
}
