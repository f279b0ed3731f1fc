// Going through the lines of one cell.
use crate::line::{Line, passed_over, read_line};
use crate::making::{Making, read_making};
use crate::memory::blank_records;
use crate::parts::{Parts, Second};
use crate::written::Written;
use cell::cell::Cell;
use cell::cell::making::check_marks;
use rules::source::Source;
use std::alloc::Global;

// A cell, the source that its lines make, and the answer to the line at hand.
#[derive(Drop)]
pub(crate) struct Replay<'m, L, B> {
    pub(crate) heap: Global,
    pub(crate) cell: Cell<'m, L>,
    pub(crate) parts: Parts<L, B>,
    pub(crate) out: String,
}

impl<L: Written, B: Second + Source<L>> Replay<'_, L, B> {
    fn answer(&mut self, line: Line<L>) -> anyhow::Result<()> {
        match line {
            Line::Enter(tag, rule) => self.enter(tag, rule)?,
            Line::Withdraw(tag) => self.withdraw(tag)?,
            Line::LookUp(tag) => self.look_up(tag)?,
            Line::Records => self.say_records()?,
            Line::Source(factor) => {
                self.parts = Parts::bare(self.heap, factor);
                write!(self.out, "ok")?;
            }
            Line::Listed(rule) => self.list_rule(rule)?,
            Line::Outline(figures) => self.offer_box(figures)?,
            Line::Try(row) => self.try_row(&row)?,
            Line::Compact(row, cycle) => self.compact(row, cycle)?,
            Line::Reduce(table, list) => self.reduce(table, list)?,
        }
        Ok(())
    }

    // Prints what a line answers, or that it is not understood.
    fn say_line(&mut self, rt: &HostRuntime, line: &str) -> anyhow::Result<()> {
        self.out.clear();
        match read_line(self.heap, line)? {
            Some(read) => self.answer(read)?,
            None => write!(self.out, "not understood")?,
        }
        rt.println(&self.out)?;
        Ok(())
    }
}

// Prints how many marks a cell made with such a count has, or why the count is refused.
fn say_marks(rt: &HostRuntime, count: usize, marks: usize) -> anyhow::Result<()> {
    match check_marks(count) {
        Ok(()) => println!(rt; "marks {marks}")?,
        Err(fault) => {
            let number = fault.number();
            println!(rt; "refused {number}")?;
        }
    }
    Ok(())
}

// Makes a cell and goes through its lines, up to the line that makes the next cell.
pub(crate) fn replay_cell<L: Written, B: Second + Source<L>>(
    rt: &HostRuntime,
    new: Making,
    lines: &[&str],
) -> anyhow::Result<()> {
    let heap = rt.alloc();
    let mut records = blank_records::<L>(heap, new.records)?;
    let cell = Cell::new(new.marks, &mut records);
    say_marks(rt, new.marks, cell.marks())?;
    let mut replay = Replay {
        heap,
        cell,
        parts: Parts::<L, B>::bare(heap, 1),
        out: String::new(heap),
    };
    for line in lines.iter().take_while(|line| read_making(line).is_none()) {
        if !passed_over(line) {
            replay.say_line(rt, line)?;
        }
    }
    Ok(())
}
