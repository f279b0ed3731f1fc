// The source of one of two makes: what it tells is what the source that it holds tells.
ghost use Rattle.either.specs.Either.{either};
ghost use Rattle.rules.specs.Choice.{either_bounded};

use crate::rule::Rule;
use crate::source::Source;
use either::Either;
use lengths::length::Length;

impl<L: Length, S: Source<L>, R: Source<L>> Source<L> for Either<S, R> {
    ghost listing = { either S.Source.listing R.Source.listing };

    ghost bounded = { either_bounded S.Source.listing R.Source.listing S.Source.bounded R.Source.bounded };

    fn places(&self) -> usize {
        match self {
            Either::Left(source) => source.places(),
            Either::Right(source) => source.places(),
        }
    }

    fn rule(&self, place: usize) -> Option<Rule<L>> {
        match self {
            Either::Left(source) => source.rule(place),
            Either::Right(source) => source.rule(place),
        }
    }
}
