// Takes the cell of a small inverter through weeks of editing, and prints the work.
#![tactic(auto)]

mod answers;
mod designer;
mod history;
mod outcomes;
mod trials;
mod turns;
mod weeks;

use boxes::source::BoxSource;
use cell::record::Record;
use history::entered_in;
use inverter::box_table::BoxTable;
use inverter::layout::{FACTOR, inverter_boxes};
use inverter::memory::RECORDS;
use inverter::rule_table::RuleTable;
use trials::try_packed_row;
use weeks::run_weeks;

fn work(rt: &HostRuntime) -> anyhow::Result<()> {
    let boxes = inverter_boxes();
    let source = BoxSource::from_boxes(FACTOR, &boxes);
    let (box_table, rule_table) = (BoxTable(&boxes), RuleTable(&source));
    print!(rt; "An inverter, {FACTOR} grid steps to the lambda.\n\n{box_table}\n{rule_table}")?;
    let mut records = [Record::blank(); RECORDS];
    let turns = run_weeks(rt, &mut records, source, &boxes)?;
    // After a run its first records hold the rules in force.
    let entered = entered_in(&turns).min(RECORDS);
    try_packed_row(rt, &records[..entered], source, &turns)
}

fn main(rt: HostRuntime) -> anyhow::Result<()> {
    work(&rt)
}
