// The turns of a run as text: what each called for, and what it was answered.
use crate::history::Moment;
use crate::outcomes::print_packed;
use boxes::layout_box::LayoutBox;
use faults::fault::CompactionFault;
use inverter::phrases::{Asked, Found, Verdict};
use lengths::grid::Grid;
use run::turn::Answer;

// What the turns of a run do not say: the name of the row that is tried, and the boxes to draw.
#[derive(Clone, Copy)]
pub(crate) struct Legend<'a> {
    pub(crate) row: &'static str,
    pub(crate) boxes: &'a [LayoutBox],
}

fn print_refusal(rt: &HostRuntime, answer: Answer<Grid>, number: u32) -> anyhow::Result<()> {
    match answer {
        Answer::Entered(Err(fault)) => println!(rt; "refused with {number}, {fault}")?,
        Answer::Withdrawn(Err(fault)) => println!(rt; "refused with {number}, {fault}")?,
        Answer::Tried(Err(fault)) => println!(rt; "trial refused with {number}, {fault}")?,
        Answer::Compacted(Err(fault)) => println!(rt; "packing refused with {number}, {fault}")?,
        Answer::Reduced(Err(fault)) => println!(rt; "reduction refused with {number}, {fault}")?,
        _ => {}
    }
    Ok(())
}

// A turn, and what its call left in its memory.
pub(crate) fn print_turn(
    rt: &HostRuntime,
    moment: Moment<'_, '_>,
    legend: Legend<'_>,
) -> anyhow::Result<()> {
    let turn = moment.turn;
    let (asked, name) = (Asked(turn.call), legend.row);
    print!(rt; "{asked}")?;
    // A run answers every turn.
    let Some(answer) = turn.answer else {
        return Ok(());
    };
    if let Some(refusal) = answer.refusal() {
        print_refusal(rt, answer, refusal.number)?;
    }
    match answer {
        Answer::Entered(Ok(())) | Answer::Withdrawn(Ok(())) => println!(rt; "ok")?,
        Answer::Found(found) => {
            let found = Found(found);
            println!(rt; "{found}")?;
        }
        Answer::Tried(Ok(broken)) => {
            let verdict = Verdict(broken);
            println!(rt; "{name} {verdict}")?;
        }
        Answer::Compacted(Ok(())) => print_packed(rt, &turn.row, legend.boxes)?,
        Answer::Compacted(Err(CompactionFault::OverConstrained(length))) => {
            moment.print_cycle(rt, length)?;
        }
        Answer::Reduced(Ok(count)) => moment.print_reduced(rt, count)?,
        // Other refusals leave nothing to show.
        _ => {}
    }
    Ok(())
}
