// The listed source: a rule at each place, read from a slice.
ghost use Rattle.std.specs.Prelude.{map, Some};
ghost use Rattle.rules.specs.Limited.{bounded_limited};
ghost use Rattle.rules.specs.Source.{listed_places};

use crate::rule::Rule;
use crate::source::{PLACE_LIMIT, Source, TOO_MANY};
use lengths::length::Length;

#[derive(Clone, Copy)]
pub struct Listed<'a, L> {
    pub rules: &'a [Rule<L>],
}

impl<L: Length> Source<L> for Listed<'_, L> {
    ghost listing = { λ s. listed_places s.rules.now };

    ghost bounded = { λ s. bounded_limited (map Some s.rules.now) };

    fn places(&self) -> usize {
        self.rules.len().min(TOO_MANY)
    }

    fn rule(&self, place: usize) -> Option<Rule<L>> {
        if self.rules.len() > PLACE_LIMIT {
            None
        } else {
            self.rules.get(place).copied()
        }
    }
}
