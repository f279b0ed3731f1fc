// The trait of every source of rules: a list of places, each with a rule or with nothing.
ghost use Rattle.std.specs.Prelude.{◌≡◌, List, length, None, Option, slice_index_or};
ghost use Rattle.rules.specs.Source.{Bounded};
ghost use Rattle.rules.specs.declared.rule.Rule.{Rule};

use crate::rule::Rule;

// The most places of a source that tells anything.
pub const PLACE_LIMIT: usize = 8192;

// The number of places of a source that would have more: it tells nothing. A number and no option, since the law of every source speaks
// of it.
pub const TOO_MANY: usize = 8193;

pub trait Source<L> {
    // The places, read off what the source holds now.
    ghost listing: { Self → List (Option (Rule L)) };

    // How many places there are.
    fn places(&self) -> usize
        ensures { result ≡ length (listing self.now) };

    // The rule at a place, or nothing; nothing past the last place.
    fn rule(&self, place: usize) -> Option<Rule<L>>
        ensures { result ≡ slice_index_or (listing self.now) place None };

    // The law of every source.
    ghost bounded: { (s : Self) → Bounded (listing s) };
}
