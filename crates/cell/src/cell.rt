// A cell: the number of its marks, and the rule memory that it was lent, filled from the front. The caller reads that memory afterwards,
// so it is a slice with a count, and no collection of the cell's own.
ghost use Rattle.std.specs.Prelude.{◌≡◌, ◌≤◌, true, length, take};
ghost use Rattle.cell.specs.Book.{used, sound};

use crate::record::Record;

pub mod compacting;
pub mod entering;
mod gathering;
pub mod making;
pub mod reading;
pub mod reducing;
pub mod trying;
pub mod withdrawing;

#[derive(Drop)]
pub struct Cell<'m, L> {
    marks: usize,
    filled: usize,
    records: &'m mut [Record<L>],
    ghost some: { 1 ≤ marks },
    ghost few: { marks ≤ 256 },
    ghost room: { filled ≤ used (length records.now) },
    ghost sound: { sound marks (take filled records.now) ≡ true },
}
