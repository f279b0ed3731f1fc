// A record of the rule memory: a rule under its tag.
ghost use Rattle.std.specs.Prelude.{◌≡◌};
ghost use Rattle.cell.specs.Blank.{blank};

use lengths::length::Length;
use rules::rule::Rule;

#[derive(Clone, Copy, PartialEq, Eq, Debug)]
pub struct Record<L> {
    pub tag: u16,
    pub rule: Rule<L>,
}

impl<L: Length> Record<L> {
    // What fills a memory before a rule is entered: no tag, and a rule from a mark to itself, which no cell takes.
    pub fn blank() -> Record<L>
        ensures { result ≡ blank L.kind }
    {
        Record {
            tag: 0,
            rule: Rule::minimum(0, 0, L::zero()),
        }
    }
}
