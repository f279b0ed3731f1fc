// Why nothing is sought: marks, rules or memory are not within their limits.
ghost use Rattle.std.specs.Prelude.{◌<◌, ◌≤◌, MatchResult};

#[derive(Clone, Copy, PartialEq, Eq, Debug)]
pub struct Unready;

// Refuses memory that has fewer entries than are needed.
pub(crate) fn check_room(needed: usize, entries: usize) -> Result<(), Unready>
    ensures { MatchResult result (λ _. needed ≤ entries) (λ _. entries < needed) }
{
    if entries < needed {
        Err(Unready)
    } else {
        Ok(())
    }
}
