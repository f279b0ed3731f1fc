// The weeks of the designer as one run on one cell.
use crate::answers::{Legend, print_turn};
use crate::designer::{Week, weeks};
use crate::history::Moment;
use crate::turns::{CellTurn, Passed};
use boxes::layout_box::LayoutBox;
use boxes::source::BoxSource;
use cell::record::Record;
use either::Either;
use inverter::layout::{MARKS, hand_drawn_row};
use lengths::grid::Grid;
use run::run::run;

// Each week under its title.
fn print_weeks(
    rt: &HostRuntime,
    weeks: &[Week],
    turns: &[CellTurn<'_>],
    legend: Legend<'_>,
) -> anyhow::Result<()> {
    // The weeks share one iterator, of whose numbers a proof knows no bound, so a turn is looked up at its place.
    let mut moments = (0..turns.len()).filter_map(|place| Moment::at(turns, place));
    for week in weeks {
        let title = week.title;
        println!(rt; "\n{title}:")?;
        for moment in moments.by_ref().take(week.calls.len()) {
            print_turn(rt, moment, legend)?;
        }
    }
    Ok(())
}

// Gives back the turns with their answers.
pub(crate) fn run_weeks<'a>(
    rt: &HostRuntime,
    records: &mut [Record<Grid>],
    source: BoxSource,
    boxes: &[LayoutBox],
) -> anyhow::Result<Vec<CellTurn<'a>>> {
    let heap = rt.alloc();
    let weeks = weeks(heap)?;
    let row = hand_drawn_row();
    let passed = Passed {
        heap,
        source: Either::Left(source),
        row: &row,
    };
    let mut turns = Vec::new(heap);
    for week in &weeks {
        passed.add_turns(&mut turns, &week.calls)?;
    }
    run(MARKS, records, &mut turns);
    let legend = Legend {
        row: "the hand-drawn row",
        boxes,
    };
    print_weeks(rt, &weeks, &turns, legend)?;
    Ok(turns)
}
