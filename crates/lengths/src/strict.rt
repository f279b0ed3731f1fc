// Strict lengths: grid steps, and least steps that count only between equal numbers of grid steps.
ghost use Rattle.lengths.specs.Strict.{strict_kind};
ghost use Rattle.lengths.specs.StrictLaws.{strict_laws};

use crate::length::Length;

// The derived order is that of strict lengths: by grid steps, then by least steps.
#[derive(Clone, Copy, PartialEq, Eq, PartialOrd, Ord, Debug)]
pub struct Strict {
    pub steps: i64,
    pub least: i64,
}

impl Length for Strict {
    ghost kind = { strict_kind };

    ghost laws = { strict_laws };

    fn zero() -> Strict {
        Strict { steps: 0, least: 0 }
    }

    fn sum(self, other: Strict) -> Strict {
        Strict {
            steps: self.steps.saturating_add(other.steps),
            least: self.least.saturating_add(other.least),
        }
    }

    fn opposite(self) -> Strict {
        Strict {
            steps: self.steps.saturating_neg(),
            least: self.least.saturating_neg(),
        }
    }

    fn at_most(self, other: Strict) -> bool {
        self <= other
    }

    fn measure(self) -> u64 {
        self.steps.unsigned_abs().max(self.least.unsigned_abs())
    }

    fn far() -> Strict {
        Strict {
            steps: 1_000_000_000_001,
            least: 0,
        }
    }
}
