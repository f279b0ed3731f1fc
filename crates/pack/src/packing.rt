// Trying an old row, packing the cell, and showing why a rule cannot be met.
use crate::desk::{Desk, print_refusal, try_row};
use cell::origin::Origin;
use faults::fault::CompactionFault;
use graph::numbered::Numbered;
use inverter::cycle::Cycle;
use inverter::designer::narrow_well;
use inverter::drawing::{Drawing, Row};
use inverter::layout::{MARKS, hand_drawn_row, steps};
use lengths::grid::Grid;
use rules::rule::Rule;
use rules::source::Source;
use run::turn::Call;

impl Desk<'_, '_> {
    // The rule in force under a number. It stands here and in weeks, as one function of both would take two closures: one for
    // the entered rules, one for the source.
    fn numbered(&self, number: u32) -> Option<Numbered<Grid>> {
        let rule = match Origin::try_from(number).ok()? {
            Origin::Entered(tag) => self.cell.look_up(tag)?,
            Origin::Border(mark) => Rule::minimum(0, mark, steps(0)),
            Origin::Told(place) => self.source.rule(usize::from(place))?,
        };
        Some(Numbered { number, rule })
    }

    // The rules of a cycle, with their gaps and what they add to. Weeks reads them from a run, and the cell is asked here: what both print is one
    // text already.
    fn print_cycle(&self, cycle: &[u32]) -> anyhow::Result<()> {
        let rt = self.rt;
        let rules: Vec<Numbered<Grid>> = cycle
            .iter()
            .filter_map(|number| self.numbered(*number))
            .collect(rt.alloc())?;
        let cycle = Cycle(&rules);
        print!(rt; "{cycle}")?;
        Ok(())
    }

    fn pack(&self) -> anyhow::Result<[Grid; MARKS]> {
        let rt = self.rt;
        let mut row = [steps(0); MARKS];
        let mut cycle = [0u32; MARKS];
        match self.cell.compact(self.source, &mut row, &mut cycle) {
            Ok(()) => {
                let marks = Row(&row);
                println!(rt; "packed:{marks}")?;
                try_row(rt, &self.cell, self.source, &row, "the packed row")?;
                let drawing = Drawing {
                    boxes: self.boxes,
                    row: &row,
                };
                print!(rt; "{drawing}")?;
            }
            Err(fault) => {
                print_refusal(rt, fault)?;
                if let CompactionFault::OverConstrained(length) = fault {
                    self.print_cycle(&cycle[..length.min(MARKS)])?;
                }
            }
        }
        Ok(row)
    }

    // Answers the packed row.
    pub(crate) fn pack_cell(&mut self) -> anyhow::Result<[Grid; MARKS]> {
        let rt = self.rt;
        println!(rt)?;
        try_row(
            rt,
            &self.cell,
            self.source,
            &hand_drawn_row(),
            "the hand-drawn row",
        )?;
        self.pack()?;
        println!(rt; "\nThe well is to be no wider than 250:")?;
        self.edit(Call::Withdraw(9))?;
        self.edit(Call::Enter(10, narrow_well()))?;
        self.pack()?;
        self.edit(Call::Withdraw(10))?;
        self.pack()
    }
}
