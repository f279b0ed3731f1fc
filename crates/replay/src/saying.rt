// What the answers are made of: lengths and rules as words, lists of entries, and refusals.
use crate::written::Written;
use faults::refusal::Refusal;
use rules::fault::RuleFault;
use rules::rule::Rule;
use std::alloc::AllocError;
use std::fmt;
use std::fmt::Display;

// A length as a word.
#[derive(Clone, Copy)]
pub(crate) struct LengthWord<L>(pub(crate) L);

impl<L: Written> Display for LengthWord<L> {
    fn fmt<W: fmt::Write>(&self, f: &mut fmt::Formatter<W>) -> fmt::Result {
        self.0.write(f)
    }
}

// A rule as a word.
#[derive(Clone, Copy)]
pub(crate) struct RuleWord<L>(pub(crate) Rule<L>);

impl<L: Written> Display for RuleWord<L> {
    fn fmt<W: fmt::Write>(&self, f: &mut fmt::Formatter<W>) -> fmt::Result {
        let Rule { from, to, gap } = self.0;
        write!(f, "{from}:{to}:")?;
        gap.write(f)
    }
}

// The entries of a list as words, each behind a space.
pub(crate) fn say_entries<T: Copy, D: Display + Drop, F: Fn(T) -> D>(
    out: &mut String,
    entries: &[T],
    word: F,
) -> Result<(), AllocError>
    requires { F.IsAlwaysCallable word }
{
    for entry in entries {
        let said = word(*entry);
        write!(out, " {said}")?;
    }
    Ok(())
}

// What a call without a result answers: that it is done, or the number of its refusal.
pub(crate) fn say_done(out: &mut String, done: Result<(), u32>) -> Result<(), AllocError> {
    match done {
        Ok(()) => write!(out, "ok"),
        Err(number) => write!(out, "refused {number}"),
    }
}

pub(crate) fn say_refusal(out: &mut String, refusal: Refusal) -> Result<(), AllocError> {
    let number = refusal.number;
    // A figure that a refusal has not is 0.
    let at = refusal.at.unwrap_or(0);
    let cause = refusal.cause.map_or(0, RuleFault::number);
    write!(out, "refused {number} {at} {cause}")
}
