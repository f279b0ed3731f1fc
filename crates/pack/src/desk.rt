// The desk that the cell is worked on: each call on the cell prints what it answers.
use boxes::layout_box::LayoutBox;
use boxes::source::BoxSource;
use cell::cell::Cell;
use faults::refusal::Refusal;
use inverter::phrases::Verdict;
use lengths::grid::Grid;
use rules::source::Source;
use std::fmt::Display;

#[derive(Drop)]
pub(crate) struct Desk<'d, 'm> {
    pub(crate) rt: &'d HostRuntime,
    pub(crate) cell: Cell<'m, Grid>,
    pub(crate) source: &'d BoxSource,
    pub(crate) boxes: &'d [LayoutBox],
}

// What a refused call prints. In weeks the words go by the call, so that each program has its own.
pub(crate) fn print_refusal<F: Copy + Display + Into<Refusal>>(
    rt: &HostRuntime,
    fault: F,
) -> anyhow::Result<()> {
    let number = fault.into().number;
    println!(rt; "refused with {number}, {fault}")?;
    Ok(())
}

// Tries a row, which is called by this name.
pub(crate) fn try_row<S: Source<Grid>>(
    rt: &HostRuntime,
    cell: &Cell<'_, Grid>,
    source: &S,
    row: &[Grid],
    name: &str,
) -> anyhow::Result<()> {
    match cell.try_row(source, row).map(Verdict) {
        Ok(verdict) => println!(rt; "{name} {verdict}")?,
        Err(fault) => println!(rt; "{name} cannot be tried: {fault}")?,
    }
    Ok(())
}
