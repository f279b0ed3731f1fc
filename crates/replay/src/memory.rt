// A cell's memory: the records that it is lent, and what they hold as text.
use crate::making::RECORD_LIMIT;
use crate::replay::Replay;
use crate::saying::RuleWord;
use crate::written::Written;
use cell::record::Record;
use std::alloc::{AllocError, Global};

pub(crate) fn blank_records<L: Written>(
    heap: Global,
    records: usize,
) -> Result<Vec<Record<L>>, AllocError> {
    vec![in heap; Record::blank(); records]
}

impl<L: Written, B> Replay<'_, L, B> {
    pub(crate) fn say_records(&mut self) -> Result<(), AllocError> {
        write!(self.out, "records")?;
        for record in (0..RECORD_LIMIT).map_while(|place| self.cell.record(place)) {
            let (tag, rule) = (record.tag, RuleWord(record.rule));
            write!(self.out, " {tag}:{rule}")?;
        }
        Ok(())
    }
}
