// Lengths that may be missing, and whether they add up.
ghost use Rattle.std.specs.Prelude.{◌≡◌};
ghost use Rattle.reduction.specs.Reduction.{equal, add_up, meet};

use lengths::length::Length;

// Whether two lengths are equal: a kind of length has an order and no equality. A cell asks the like of zero, if it is near enough.
#[tactic(auto, unfolding(crate::specs::Reduction::equal))]
fn same<L: Length>(first: L, second: L) -> bool
    ensures { result ≡ equal L.kind first second }
{
    first.at_most(second) && second.at_most(first)
}

// Whether two lengths exist and add up to a third.
pub(crate) fn adds_up<L: Length>(first: Option<L>, second: Option<L>, whole: L) -> bool
    ensures { result ≡ add_up L.kind first second whole }
{
    first
        .zip(second)
        .is_some_and(|(x, y)| same(x.sum(y), whole))
}

// Whether three lengths exist and the first two add up to the third.
pub(crate) fn meets<L: Length>(first: Option<L>, second: Option<L>, whole: Option<L>) -> bool
    ensures { result ≡ meet L.kind first second whole }
{
    whole.is_some_and(|z| adds_up(first, second, z))
}
