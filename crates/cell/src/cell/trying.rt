// Trying an outsider's row.
ghost use Rattle.cell.specs.Memory.{book};
ghost use Rattle.cell.specs.Trial.{Tries};

use crate::cell::Cell;
use crate::gathered::Gathered;
use crate::row::first_bad_mark;
use faults::fault::TrialFault;
use graph::trial::trial;
use lengths::length::Length;
use lengths::stored::Stored;
use rules::source::Source;

impl<'m, L: Length + Stored> Cell<'m, L> {
    // 0 where the row keeps all rules in force, else the smallest number of a broken one: a trial is defined to answer a number.
    pub fn try_row<S: Source<L>>(&self, source: &S, row: &[L]) -> Result<u32, TrialFault>
        ensures { Tries L.kind self.now.marks (book self.now) (S.Source.listing source.now) row.now result }
    {
        let mut rules = Gathered::new();
        self.gather(source, &mut rules)?;
        if row.len() < self.marks {
            return Err(TrialFault::ShortRow);
        }
        if let Some(mark) = first_bad_mark(self.marks, row) {
            return Err(TrialFault::BadMark(mark));
        }
        let broken = trial(self.marks, rules.rules(), row).unwrap();
        Ok(broken.unwrap_or(0))
    }
}
