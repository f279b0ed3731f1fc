// Rounds of raises over the rules of a graph, each of which raises the mark it leads to where the row breaks it.
ghost use Rattle.std.specs.Prelude.{◌≡◌, ℕ, ◌+◌, ◌<◌, ◌≤◌, false, List, length};
ghost use Rattle.graph.specs.Rounds.{most_raises, Setting, tried_at};
ghost use Rattle.graph.specs.Outcome.{Relaxed, RoundAt, Ended};

use crate::chain::{ClosedChain, LastRules};
use crate::graph::Graph;
use lengths::length::Length;
use rules::rule::Rule;

// Raises the mark that a rule leads to where the row breaks the rule, and notes the rule's index there.
fn relax<L: Length>(rule: Rule<L>, index: usize, row: &mut [L], last: &mut LastRules) -> bool
    requires { (rule.from < length row.old) × ((rule.to < length row.old) × (rule.to < 256)) }
    ensures { Relaxed L.kind rule index row.old last.old result row.new last.new }
{
    let before = row[rule.from as usize];
    let held = row[rule.to as usize];
    let pushed = before.sum(rule.gap);
    if pushed.at_most(held) {
        return false;
    }
    row[rule.to as usize] = pushed;
    last[rule.to as usize] = Some(index);
    true
}

// The rule that a round tries at a step: forwards from the first, or backwards from the last. What holds during a round
// names its direction, so that is a value here, and no closure or iterator whose contract would name it again.
fn turn(forwards: bool, count: usize, step: usize) -> usize
    requires { step < count }
    ensures { result ≡ tried_at forwards count step }
{
    if forwards { step } else { count - 1 - step }
}

impl<L: Length> Graph<'_, L> {
    // One round: relaxes every rule once, and tells whether a mark was raised.
    fn one_round(&self, row: &mut [L], last: &mut LastRules, forwards: bool) -> bool
        requires { self.now.marks ≤ length row.old }
        ensures { (start : List L) (tries current : ℕ) → Setting L.kind self.now.marks self.now.rules.now start → tries + length self.now.rules.now ≤ most_raises → RoundAt L.kind self.now.marks self.now.rules.now start tries current forwards 0 false row.old last.old → RoundAt L.kind self.now.marks self.now.rules.now start (tries + length self.now.rules.now) current forwards (length self.now.rules.now) result row.new last.new }
    {
        let rules = self.rules;
        let mut raised = false;
        for step in 0..rules.len() {
            let index = turn(forwards, rules.len(), step);
            let listed = rules[index];
            // An `if`: with `raised |= ..` the rounds take half as long again.
            if relax(listed.rule, index, row, last) {
                raised = true;
            }
        }
        raised
    }

    // Rounds in alternate directions until one raises nothing, so that the row has settled, or leaves a
    // closed chain of last rules.
    pub(crate) fn rounds(&self, row: &mut [L]) -> Option<ClosedChain>
        requires { Setting L.kind self.now.marks self.now.rules.now row.old }
        ensures { Ended L.kind self.now.marks self.now.rules.now row.old result row.new }
    {
        let mut last = [None; 256];
        // Rounds are counted, and are the elements of nothing.
        for past in 0..self.marks {
            if !self.one_round(row, &mut last, past % 2 == 0) {
                return None;
            }
            if let Some((mark, count)) = self.closed_chain(&last) {
                return Some(ClosedChain { mark, count, last });
            }
        }
        // A raise in the last of so many rounds leaves a closed chain, so this is never reached.
        None
    }
}
