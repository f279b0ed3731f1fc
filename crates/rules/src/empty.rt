// The empty source: no places.
ghost use Rattle.std.specs.Prelude.{[]};
ghost use Rattle.std.proofs.Common.{zero-le};
ghost use Rattle.rules.specs.Limited.{bounded_few};

use crate::rule::Rule;
use crate::source::Source;
use lengths::length::Length;

#[derive(Clone, Copy)]
pub struct Empty;

impl<L: Length> Source<L> for Empty {
    ghost listing = { λ _. [] };

    ghost bounded = { λ _. bounded_few [] zero-le };

    fn places(&self) -> usize {
        0
    }

    fn rule(&self, _place: usize) -> Option<Rule<L>> {
        None
    }
}
