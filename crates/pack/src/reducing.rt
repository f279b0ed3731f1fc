// Reducing the rules in force, and trying a row against what is left of them.
use crate::desk::{Desk, print_refusal, try_row};
use cell::cell::Cell;
use cell::record::Record;
use inverter::layout::{MARKS, steps};
use inverter::memory::LIST_ROOM;
use inverter::reduced::Reduced;
use inverter::told::told;
use lengths::grid::Grid;
use rules::listed::Listed;
use rules::rule::Rule;

impl Desk<'_, '_> {
    // As for a cycle, the text is shared, and where its figures come from is not.
    fn print_reduced(&self, row: &[Grid], list: &[Rule<Grid>]) -> anyhow::Result<()> {
        let rt = self.rt;
        let reduced = Reduced {
            entered: self.cell.filled(),
            told: told(self.source),
            list,
        };
        print!(rt; "{reduced}")?;
        let name = "the packed row, tried against all rules,";
        try_row(rt, &self.cell, self.source, row, name)?;
        let mut records = [Record::blank(); 1];
        let unedited = Cell::new(MARKS, &mut records);
        let name = "the packed row, tried against the reduced list,";
        try_row(rt, &unedited, &Listed { rules: list }, row, name)
    }

    pub(crate) fn reduce_cell(&self, row: &[Grid]) -> anyhow::Result<()> {
        let rt = self.rt;
        println!(rt)?;
        let mut table = [steps(0); MARKS * MARKS];
        let mut list = [Rule::minimum(0, 0, steps(0)); LIST_ROOM];
        match self.cell.reduce(self.source, &mut table, &mut list) {
            Ok(count) => self.print_reduced(row, &list[..count.min(LIST_ROOM)]),
            Err(fault) => print_refusal(rt, fault),
        }
    }
}
