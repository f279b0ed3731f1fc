// The joined source: the places of one source, then those of another.
ghost use Rattle.std.specs.Prelude.{◌++◌};
ghost use Rattle.rules.specs.Limited.{bounded_limited};
ghost use Rattle.rules.specs.Source.{joined_places};

use crate::rule::Rule;
use crate::source::{PLACE_LIMIT, Source, TOO_MANY};
use lengths::length::Length;

#[derive(Clone, Copy, Drop)]
pub struct Joined<S, R> {
    pub first: S,
    pub second: R,
}

impl<L: Length, S: Source<L>, R: Source<L>> Source<L> for Joined<S, R> {
    ghost listing = { λ s. joined_places (S.Source.listing s.first) (R.Source.listing s.second) };

    ghost bounded = { λ s. bounded_limited (S.Source.listing s.first ++ R.Source.listing s.second) };

    fn places(&self) -> usize {
        let count = self.first.places() + self.second.places();
        count.min(TOO_MANY)
    }

    fn rule(&self, place: usize) -> Option<Rule<L>> {
        let first = self.first.places();
        let count = first + self.second.places();
        if count > PLACE_LIMIT {
            None
        } else if place < first {
            self.first.rule(place)
        } else {
            self.second.rule(place - first)
        }
    }
}
