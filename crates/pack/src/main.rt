// Packs the cell of a small inverter and prints the work.
#![tactic(auto)]

mod desk;
mod editing;
mod packing;
mod reducing;

use boxes::source::BoxSource;
use cell::cell::Cell;
use cell::record::Record;
use desk::Desk;
use inverter::box_table::BoxTable;
use inverter::layout::{FACTOR, MARKS, inverter_boxes};
use inverter::memory::RECORDS;
use inverter::rule_table::RuleTable;

fn run(rt: &HostRuntime) -> anyhow::Result<()> {
    let boxes = inverter_boxes();
    let source = BoxSource::from_boxes(FACTOR, &boxes);
    let (box_table, rule_table) = (BoxTable(&boxes), RuleTable(&source));
    println!(rt; "An inverter, {FACTOR} grid steps to the lambda.\n\n{box_table}\n{rule_table}")?;
    let mut records = [Record::blank(); RECORDS];
    let mut desk = Desk {
        rt,
        cell: Cell::new(MARKS, &mut records),
        source: &source,
        boxes: &boxes,
    };
    desk.edit_rules()?;
    let row = desk.pack_cell()?;
    desk.reduce_cell(&row)
}

fn main(rt: HostRuntime) -> anyhow::Result<()> {
    run(&rt)
}
