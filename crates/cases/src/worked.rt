// The worked cases.
ghost use Rattle.std.specs.Prelude.{◌≡◌, length};
ghost use Rattle.std.specs.List.{AllByRecursion as Every};
ghost use Rattle.cases.specs.Worked.{Follows, worked};

// How many worked cases there are; each follows from the definitions.
pub fn worked_cases() -> usize
    ensures follow { Every Follows worked }
    ensures count { result ≡ length worked }
{
    13
}
