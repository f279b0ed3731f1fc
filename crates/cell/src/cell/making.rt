// Checking a number of marks, and making a cell.
ghost use Rattle.std.specs.Prelude.{◌≡◌};
ghost use Rattle.cell.specs.Calls.{marks_check};
ghost use Rattle.cell.specs.Memory.{Makes};

use crate::cell::Cell;
use crate::record::Record;
use faults::fault::MarksFault;

// Whether a cell can have so many marks.
pub fn check_marks(count: usize) -> Result<(), MarksFault>
    ensures { result ≡ marks_check count }
{
    if (1..=256).contains(&count) {
        Ok(())
    } else {
        Err(MarksFault::MarkCount)
    }
}

impl<'m, L> Cell<'m, L> {
    // A cell with no rules, of one mark where the count is refused. No record is touched.
    pub fn new(count: usize, records: &'m mut [Record<L>]) -> Cell<'m, L>
        ensures { Makes count records.entry result }
    {
        let marks = check_marks(count).map_or(1, |()| count);
        Cell {
            marks,
            filled: 0,
            records,
        }
    }
}
