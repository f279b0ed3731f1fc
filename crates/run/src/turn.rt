// A turn: one of the six calls, what it is passed, and a place for its answer.
ghost use Rattle.std.specs.Prelude.{◌≡◌};
ghost use Rattle.run.specs.Refused.{answer_refusal};

use faults::fault::{CompactionFault, EntryFault, ReductionFault, TrialFault, WithdrawalFault};
use faults::refusal::Refusal;
use rules::rule::Rule;

// The six calls; what those with a source are passed stands in the turn.
#[derive(Clone, Copy)]
pub enum Call<L> {
    Enter(u16, Rule<L>),
    Withdraw(u16),
    LookUp(u16),
    Try,
    Compact,
    Reduce,
}

#[derive(Clone, Copy)]
pub enum Answer<L> {
    Entered(Result<(), EntryFault>),
    Withdrawn(Result<(), WithdrawalFault>),
    Found(Option<Rule<L>>),
    Tried(Result<u32, TrialFault>),
    Compacted(Result<(), CompactionFault>),
    Reduced(Result<usize, ReductionFault>),
}

impl<L: Copy> Answer<L> {
    // The refusal in numbers; nothing where the call was accepted.
    pub fn refusal(self) -> Option<Refusal>
        ensures { result ≡ answer_refusal self }
    {
        match self {
            Answer::Entered(Err(fault)) => Some(fault.into()),
            Answer::Withdrawn(Err(fault)) => Some(fault.into()),
            Answer::Tried(Err(fault)) => Some(fault.into()),
            Answer::Compacted(Err(fault)) => Some(fault.into()),
            Answer::Reduced(Err(fault)) => Some(fault.into()),
            _ => None,
        }
    }
}

// The source and the memory are the turn's own; a call that does not use them leaves them alone. There is no answer until the call is made.
#[derive(Drop)]
pub struct Turn<L, S> {
    pub call: Call<L>,
    pub source: S,
    pub row: Vec<L>,
    pub cycle: Vec<u32>,
    pub table: Vec<L>,
    pub list: Vec<Rule<L>>,
    pub answer: Option<Answer<L>>,
}
