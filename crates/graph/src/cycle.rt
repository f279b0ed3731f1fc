// A cycle of rules that no row keeps, shown by the numbers of its rules.
ghost use Rattle.std.specs.Prelude.{◌≡◌, ◌≤◌, ◌++◌, length, drop};
ghost use Rattle.graph.specs.Chains.{chain as links, Returns};
ghost use Rattle.graph.specs.Cycles.{numbers, Shows};

use crate::chain::ClosedChain;
use crate::graph::Graph;
use crate::numbered::Numbered;
use crate::positions::clear;
use crate::unready::{Unready, check_room};
use lengths::length::Length;

impl<L: Length> Graph<'_, L> {
    // Writes the numbers of the rules of a closed chain, backwards from the end, so that the list begins
    // with the rule that leaves its mark.
    // By index: after a loop over `iter_mut().rev()` a proof knows the length of the list, and not what was written to it.
    fn write_chain(&self, chain: &ClosedChain, list: &mut [u32])
        requires returns { Returns L.kind self.now.marks self.now.rules.now chain.now.last chain.now.mark chain.now.count }
        requires fits { chain.now.count ≤ length list.old }
        ensures { list.new ≡ numbers (links L.kind self.now.marks self.now.rules.now chain.now.last chain.now.count chain.now.mark) ++ drop chain.now.count list.old }
    {
        let rules = self.rules;
        let mut at = chain.mark;
        for place in (0..chain.count).rev() {
            let index = chain.last[at].unwrap();
            let listed = rules[index];
            list[place] = listed.number;
            at = listed.rule.from as usize;
        }
    }
}

// Looks for a positive cycle from zeros, writes the numbers of its rules into the list, and answers how
// many they are, or none. The entries of the marks are zero afterwards, unless nothing could be sought.
pub fn show_cycle<L: Length>(
    marks: usize,
    rules: &[Numbered<L>],
    row: &mut [L],
    list: &mut [u32],
) -> Result<Option<usize>, Unready>
    ensures { Shows L.kind marks rules.now row.old list.old result row.new list.new }
{
    let graph = Graph::new(marks, rules)?;
    check_room(graph.marks, row.len())?;
    check_room(graph.marks, list.len())?;
    clear(graph.marks, row);
    let found = graph.rounds(row);
    clear(graph.marks, row);
    let Some(chain) = found else {
        return Ok(None);
    };
    graph.write_chain(&chain, list);
    Ok(Some(chain.count))
}
