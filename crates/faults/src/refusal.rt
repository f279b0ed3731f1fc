// A refusal in numbers: which it is, and the values that go with it.
ghost use Rattle.std.specs.Prelude.{◌≡◌, Some, None};
ghost use Rattle.faults.specs.Refusal.{refusal, marks_refusal, entry_refusal, withdrawal_refusal, source_refusal, trial_refusal, compaction_refusal, reduction_refusal};

use crate::fault::{
    CompactionFault, EntryFault, MarksFault, ReductionFault, SourceFault, TrialFault,
    WithdrawalFault,
};
use rules::fault::RuleFault;

// The number of the refusal; the place, mark or length that goes with it, if any; the cause within it, if there is one.
#[derive(Clone, Copy, PartialEq, Eq, Debug)]
pub struct Refusal {
    pub number: u32,
    pub at: Option<usize>,
    pub cause: Option<RuleFault>,
}

// The numbers below stand here: an enum with values has none of its own to declare.

// A refusal that has nothing but its number.
fn plain(number: u32) -> Refusal
    ensures { result ≡ refusal number None None }
{
    Refusal {
        number,
        at: None,
        cause: None,
    }
}

// A refusal with the place, mark or length that it tells.
fn telling(number: u32, at: usize) -> Refusal
    ensures { result ≡ refusal number (Some at) None }
{
    Refusal {
        number,
        at: Some(at),
        cause: None,
    }
}

// Three of one line: an `impl` for all faults with a number would overlap with those that tell more, below.
impl From<MarksFault> for Refusal {
    ghost from_gives = { λ fault r. r ≡ marks_refusal fault };

    fn from(fault: MarksFault) -> Refusal {
        plain(fault.number())
    }
}

impl From<EntryFault> for Refusal {
    ghost from_gives = { λ fault r. r ≡ entry_refusal fault };

    fn from(fault: EntryFault) -> Refusal {
        plain(fault.number())
    }
}

impl From<WithdrawalFault> for Refusal {
    ghost from_gives = { λ fault r. r ≡ withdrawal_refusal fault };

    fn from(fault: WithdrawalFault) -> Refusal {
        plain(fault.number())
    }
}

impl From<SourceFault> for Refusal {
    ghost from_gives = { λ fault r. r ≡ source_refusal fault };

    fn from(fault: SourceFault) -> Refusal {
        match fault {
            SourceFault::TooManyPlaces => plain(9),
            SourceFault::UnfitPlace(place, cause) => Refusal {
                number: 10,
                at: Some(place),
                cause: Some(cause),
            },
        }
    }
}

impl From<TrialFault> for Refusal {
    ghost from_gives = { λ fault r. r ≡ trial_refusal fault };

    fn from(fault: TrialFault) -> Refusal {
        match fault {
            TrialFault::BadSource(fault) => Refusal::from(fault),
            TrialFault::ShortRow => plain(11),
            TrialFault::BadMark(mark) => telling(14, mark),
        }
    }
}

impl From<CompactionFault> for Refusal {
    ghost from_gives = { λ fault r. r ≡ compaction_refusal fault };

    fn from(fault: CompactionFault) -> Refusal {
        match fault {
            CompactionFault::BadSource(fault) => Refusal::from(fault),
            CompactionFault::ShortRow => plain(11),
            CompactionFault::ShortList => plain(12),
            CompactionFault::OverConstrained(length) => telling(15, length),
        }
    }
}

impl From<ReductionFault> for Refusal {
    ghost from_gives = { λ fault r. r ≡ reduction_refusal fault };

    fn from(fault: ReductionFault) -> Refusal {
        match fault {
            ReductionFault::BadSource(fault) => Refusal::from(fault),
            ReductionFault::ShortTable => plain(13),
            ReductionFault::OverConstrained => plain(15),
            ReductionFault::ShortList(count) => telling(16, count),
        }
    }
}
