// A rule: mark `to` lies at least `gap` beyond mark `from`.
ghost use Rattle.std.specs.Prelude.{◌≡◌};
ghost use Rattle.rules.specs.Rule.{minimum, maximum, rule_check};

use crate::fault::RuleFault;
use lengths::length::Length;

#[derive(Clone, Copy, PartialEq, Eq, Debug)]
pub struct Rule<L> {
    pub from: u16,
    pub to: u16,
    pub gap: L,
}

impl<L: Length> Rule<L> {
    // `to` lies at least `gap` beyond `from`.
    pub fn minimum(from: u16, to: u16, gap: L) -> Rule<L>
        ensures { result ≡ minimum from to gap }
    {
        Rule { from, to, gap }
    }

    // `to` lies at most `gap` beyond `from`: `from` lies at least the opposite of `gap` beyond `to`.
    pub fn maximum(from: u16, to: u16, gap: L) -> Rule<L>
        ensures { result ≡ maximum L.kind from to gap }
    {
        Rule {
            from: to,
            to: from,
            gap: gap.opposite(),
        }
    }

    // Whether the rule fits a cell of so many marks; the first cause that applies if not.
    pub fn check(self, marks: usize) -> Result<(), RuleFault>
        ensures { result ≡ rule_check L.kind marks self }
    {
        if self.from as usize >= marks || self.to as usize >= marks {
            return Err(RuleFault::NoSuchMark);
        }
        if self.from == self.to {
            return Err(RuleFault::SameMark);
        }
        if self.gap.measure() > 1_000_000 {
            return Err(RuleFault::GapTooLarge);
        }
        Ok(())
    }
}
