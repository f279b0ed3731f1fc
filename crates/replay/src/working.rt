// The calls on the rules in force, each with the memory that it is lent, and what they answer.
use crate::parts::Second;
use crate::replay::Replay;
use crate::saying::{LengthWord, RuleWord, say_entries, say_refusal};
use crate::written::Written;
use rules::rule::Rule;
use rules::source::Source;
use std::alloc::AllocError;

impl<L: Written, B: Second + Source<L>> Replay<'_, L, B> {
    pub(crate) fn try_row(&mut self, row: &[L]) -> Result<(), AllocError> {
        match self.cell.try_row(&self.parts.joined(), row) {
            Ok(number) => write!(self.out, "answer {number}"),
            Err(fault) => say_refusal(&mut self.out, fault.into()),
        }
    }

    pub(crate) fn compact(&mut self, row: usize, cycle: usize) -> Result<(), AllocError> {
        let mut row = vec![in self.heap; L::seventy_seven(); row]?;
        let mut cycle = vec![in self.heap; 77u32; cycle]?;
        match self
            .cell
            .compact(&self.parts.joined(), &mut row, &mut cycle)
        {
            Ok(()) => write!(self.out, "packed")?,
            Err(fault) => say_refusal(&mut self.out, fault.into())?,
        }
        write!(self.out, " | row")?;
        say_entries(&mut self.out, &row, |length| LengthWord(length))?;
        write!(self.out, " | cycle")?;
        say_entries(&mut self.out, &cycle, |number| number)
    }

    pub(crate) fn reduce(&mut self, table: usize, list: usize) -> Result<(), AllocError> {
        let mut table = vec![in self.heap; L::seventy_seven(); table]?;
        let mut list = vec![in self.heap; Rule::minimum(7, 7, L::seventy_seven()); list]?;
        match self
            .cell
            .reduce(&self.parts.joined(), &mut table, &mut list)
        {
            Ok(count) => write!(self.out, "reduced {count}")?,
            Err(fault) => say_refusal(&mut self.out, fault.into())?,
        }
        write!(self.out, " | table")?;
        say_entries(&mut self.out, &table, |length| LengthWord(length))?;
        write!(self.out, " | list")?;
        say_entries(&mut self.out, &list, |rule| RuleWord(rule))
    }
}
