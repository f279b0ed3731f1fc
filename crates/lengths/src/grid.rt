// Grid lengths: a signed number of grid steps.
ghost use Rattle.lengths.specs.Grid.{grid_kind};
ghost use Rattle.std.proofs.Common.{rules};

use crate::length::Length;

#[derive(Clone, Copy, PartialEq, Eq, PartialOrd, Ord, Debug)]
pub struct Grid {
    pub steps: i64,
}

impl Length for Grid {
    ghost kind = { grid_kind };

    ghost laws = { Prim.search rules };

    fn zero() -> Grid {
        Grid { steps: 0 }
    }

    fn sum(self, other: Grid) -> Grid {
        Grid {
            steps: self.steps.saturating_add(other.steps),
        }
    }

    fn opposite(self) -> Grid {
        Grid {
            steps: self.steps.saturating_neg(),
        }
    }

    fn at_most(self, other: Grid) -> bool {
        self <= other
    }

    fn measure(self) -> u64 {
        self.steps.unsigned_abs()
    }

    fn far() -> Grid {
        Grid {
            steps: 1_000_000_000_001,
        }
    }
}
