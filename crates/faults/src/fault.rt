// Why a call on a cell is refused.
ghost use Rattle.std.specs.Prelude.{◌≡◌};
ghost use Rattle.faults.specs.Fault.{marks_fault_number, entry_fault_number, withdrawal_fault_number};
ghost use Rattle.faults.specs.declared.fault.EntryFault.TheVariants.{Unfit};
ghost use Rattle.faults.specs.declared.fault.CompactionFault.TheVariants as compaction;
ghost use Rattle.faults.specs.declared.fault.ReductionFault.TheVariants as reduction;
ghost use Rattle.faults.specs.declared.fault.TrialFault.TheVariants.{BadSource};

use rules::fault::RuleFault;
use thiserror::Error;

#[derive(Clone, Copy, PartialEq, Eq, Debug, Error)]
pub enum MarksFault {
    #[error("a cell has 1 to 256 marks")]
    MarkCount = 1,
}

impl MarksFault {
    // The number of the refusal.
    pub fn number(self) -> u32
        ensures { result ≡ marks_fault_number self }
    {
        self as u32
    }
}

#[derive(Clone, Copy, PartialEq, Eq, Debug, Error)]
pub enum EntryFault {
    #[error("tag 0 is no tag")]
    NoTag,
    #[error(transparent)]
    Unfit(RuleFault),
    #[error("a rule is in force under the tag")]
    TagInForce,
    #[error("every record holds a rule in force")]
    Full,
}

impl EntryFault {
    // The number of the refusal. An enum with values has no numbers of its own to declare.
    pub fn number(self) -> u32
        ensures { result ≡ entry_fault_number self }
    {
        match self {
            EntryFault::NoTag => 2,
            EntryFault::Unfit(fault) => fault.number(),
            EntryFault::TagInForce => 6,
            EntryFault::Full => 7,
        }
    }
}

// Written out, as the two kinds of `From` below: the derived one does not say which variant it makes, and contracts do.
impl From<RuleFault> for EntryFault {
    ghost from_gives = { λ f r. r ≡ Unfit f };

    fn from(fault: RuleFault) -> EntryFault {
        Self::Unfit(fault)
    }
}

#[derive(Clone, Copy, PartialEq, Eq, Debug, Error)]
pub enum WithdrawalFault {
    #[error("tag 0 is no tag")]
    NoTag = 2,
    #[error("no rule is in force under the tag")]
    TagNotInForce = 8,
}

impl WithdrawalFault {
    // The number of the refusal.
    pub fn number(self) -> u32
        ensures { result ≡ withdrawal_fault_number self }
    {
        self as u32
    }
}

#[derive(Clone, Copy, PartialEq, Eq, Debug, Error)]
pub enum SourceFault {
    #[error("the source has more than 8,192 places")]
    TooManyPlaces,
    #[error("the rule at place {0} is unfit: {1}")]
    UnfitPlace(usize, RuleFault),
}

#[derive(Clone, Copy, PartialEq, Eq, Debug, Error)]
pub enum TrialFault {
    #[error(transparent)]
    BadSource(SourceFault),
    #[error("the row is shorter than the number of marks")]
    ShortRow,
    // Mark 0 does not lie at zero, or a mark lies too far.
    #[error("mark {0} may not lie where it does")]
    BadMark(usize),
}

// One for each of the three calls with a source: each names its own variant.
impl From<SourceFault> for TrialFault {
    ghost from_gives = { λ f r. r ≡ BadSource f };

    fn from(fault: SourceFault) -> TrialFault {
        TrialFault::BadSource(fault)
    }
}

#[derive(Clone, Copy, PartialEq, Eq, Debug, Error)]
pub enum CompactionFault {
    #[error(transparent)]
    BadSource(SourceFault),
    #[error("the row is shorter than the number of marks")]
    ShortRow,
    #[error("the cycle list is shorter than the number of marks")]
    ShortList,
    // A positive cycle of so many rules in force, shown by their numbers.
    #[error("over-constrained, by a cycle of {0} rules")]
    OverConstrained(usize),
}

impl From<SourceFault> for CompactionFault {
    ghost from_gives = { λ f r. r ≡ compaction.BadSource f };

    fn from(fault: SourceFault) -> CompactionFault {
        CompactionFault::BadSource(fault)
    }
}

#[derive(Clone, Copy, PartialEq, Eq, Debug, Error)]
pub enum ReductionFault {
    #[error(transparent)]
    BadSource(SourceFault),
    #[error("the table has fewer entries than there are pairs of marks")]
    ShortTable,
    // The rules in force have a positive cycle.
    #[error("over-constrained")]
    OverConstrained,
    #[error("the result list is shorter than the {0} rules of the reduced list")]
    ShortList(usize),
}

impl From<SourceFault> for ReductionFault {
    ghost from_gives = { λ f r. r ≡ reduction.BadSource f };

    fn from(fault: SourceFault) -> ReductionFault {
        ReductionFault::BadSource(fault)
    }
}
