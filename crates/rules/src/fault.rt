// Why a rule does not fit a cell, and the number of each refusal.
ghost use Rattle.std.specs.Prelude.{◌≡◌};
ghost use Rattle.rules.specs.Fault.{rule_fault_number};

use thiserror::Error;

#[derive(Clone, Copy, PartialEq, Eq, Debug, Error)]
pub enum RuleFault {
    #[error("a mark is not below the number of marks")]
    NoSuchMark = 3,
    #[error("both marks are the same")]
    SameMark = 4,
    #[error("the gap is larger than 1,000,000")]
    GapTooLarge = 5,
}

impl RuleFault {
    // The number of the refusal.
    pub fn number(self) -> u32
        ensures { result ≡ rule_fault_number self }
    {
        self as u32
    }
}
