// What packings and reductions leave behind: a row with its drawing, a cycle, a list of rules.
use crate::history::{Moment, entered_in};
use boxes::layout_box::LayoutBox;
use graph::numbered::Numbered;
use inverter::cycle::Cycle;
use inverter::drawing::{Drawing, Row};
use inverter::reduced::Reduced;
use inverter::told::told;
use lengths::grid::Grid;

pub(crate) fn print_packed(
    rt: &HostRuntime,
    row: &[Grid],
    boxes: &[LayoutBox],
) -> anyhow::Result<()> {
    let (marks, drawing) = (Row(row), Drawing { boxes, row });
    print!(rt; "packed:{marks}\n{drawing}")?;
    Ok(())
}

impl Moment<'_, '_> {
    // The rules of the cycle that was shown, with their gaps and what they add to.
    pub(crate) fn print_cycle(&self, rt: &HostRuntime, length: usize) -> anyhow::Result<()> {
        let rules: Vec<Numbered<Grid>> = self
            .turn
            .cycle
            .iter()
            .take(length)
            .filter_map(|number| self.numbered(*number))
            .collect(rt.alloc())?;
        let cycle = Cycle(&rules);
        print!(rt; "{cycle}")?;
        Ok(())
    }

    // The rules in force by where they come from, and the list that they were reduced to.
    pub(crate) fn print_reduced(&self, rt: &HostRuntime, count: usize) -> anyhow::Result<()> {
        let list = &self.turn.list;
        let reduced = Reduced {
            entered: entered_in(self.before),
            told: told(&self.turn.source),
            list: &list[..count.min(list.len())],
        };
        print!(rt; "{reduced}")?;
        Ok(())
    }
}
