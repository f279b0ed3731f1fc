// The packed row in new cells: against the rules in force entered again, and against the reduced list alone.
use crate::answers::{Legend, print_turn};
use crate::history::{Moment, packed_row, reduced_list};
use crate::turns::{CellTurn, Passed};
use boxes::source::BoxSource;
use cell::record::Record;
use either::Either;
use inverter::layout::MARKS;
use inverter::memory::RECORDS;
use lengths::grid::Grid;
use rules::listed::Listed;
use run::run::run;
use run::turn::Call;

// Runs these calls on a new cell, and prints the turns; `name` is what the row is called.
fn run_calls(
    rt: &HostRuntime,
    calls: &[Call<Grid>],
    passed: Passed<'_, '_>,
    name: &'static str,
) -> anyhow::Result<()> {
    let mut turns = Vec::new(rt.alloc());
    passed.add_turns(&mut turns, calls)?;
    let mut records = [Record::blank(); RECORDS];
    run(MARKS, &mut records, &mut turns);
    // Nothing is packed here, so there are no boxes to draw.
    let legend = Legend {
        row: name,
        boxes: &[],
    };
    for (place, turn) in turns.iter().enumerate() {
        let moment = Moment {
            before: &turns[..place],
            turn,
        };
        print_turn(rt, moment, legend)?;
    }
    Ok(())
}

// The book has the entered rules that the run of these turns left in force.
pub(crate) fn try_packed_row(
    rt: &HostRuntime,
    book: &[Record<Grid>],
    source: BoxSource,
    turns: &[CellTurn<'_>],
) -> anyhow::Result<()> {
    let (heap, row) = (rt.alloc(), packed_row(turns));
    let mut calls = Vec::new(heap);
    for record in book {
        calls.push(Call::Enter(record.tag, record.rule))?;
    }
    calls.push(Call::Try)?;
    println!(rt; "\nThe rules in force, entered into a new cell:")?;
    let source = Either::Left(source);
    let passed = Passed { heap, source, row };
    let name = "the packed row, tried against all rules,";
    run_calls(rt, &calls, passed, name)?;
    println!(rt; "\nThe reduced list, told to a cell with no rules entered:")?;
    let rules = reduced_list(turns);
    let source = Either::Right(Listed { rules });
    let passed = Passed { heap, source, row };
    let name = "the packed row, tried against the reduced list,";
    run_calls(rt, &[Call::Try], passed, name)
}
