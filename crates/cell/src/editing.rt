// A list of entries and withdrawals, applied to a new cell one after the other. A run makes all six calls, and asks more of a kind of length.
ghost use Rattle.std.specs.Prelude.{◌≡◌, map, length, take};
ghost use Rattle.cell.specs.Edits.{edited, edited_memory, after, after_memory};
ghost use Rattle.cell.specs.Book.{used};
ghost use Rattle.cell.specs.Calls.{cell_marks};
ghost use Rattle.cell.specs.Force.{book_rules, by_tag};
ghost use Rattle.cell.specs.Memory.{book, memory};

use crate::cell::Cell;
use crate::record::Record;
use lengths::length::Length;
use rules::rule::Rule;

#[derive(Clone, Copy)]
pub enum Edit<L> {
    Enter(u16, Rule<L>),
    Withdraw(u16),
}

// Applies one edit; a refused one changes nothing.
pub fn apply<L: Length>(cell: &mut Cell<'_, L>, edit: Edit<L>)
    ensures marks { cell.new.marks ≡ cell.old.marks }
    ensures lent { cell.new.records.ghost_name ≡ cell.old.records.ghost_name }
    ensures book { book cell.new ≡ edited L.kind cell.old.marks (used (length (memory cell.old))) (book cell.old) edit }
    ensures memory { memory cell.new ≡ edited_memory L.kind cell.old.marks (memory cell.old) (book cell.old) edit }
{
    match edit {
        Edit::Enter(tag, rule) => {
            let _ = cell.enter(tag, rule);
        }
        Edit::Withdraw(tag) => {
            let _ = cell.withdraw(tag);
        }
    }
}

// Makes a cell of so many marks on these records, applies the edits in order, and answers how many rules are in
// the book then. All of them are in force.
pub fn edit_all<L: Length>(count: usize, records: &mut [Record<L>], edits: &[Edit<L>]) -> usize
    ensures book { take result records.new ≡ after L.kind (cell_marks count) (used (length records.old)) edits.now }
    ensures memory { records.new ≡ after_memory L.kind (cell_marks count) records.old edits.now }
    ensures force { book_rules L.kind (cell_marks count) (take result records.new) ≡ map (by_tag L.kind (cell_marks count)) (take result records.new) }
{
    let mut cell = Cell::new(count, records);
    for edit in edits {
        apply(&mut cell, *edit);
    }
    cell.filled()
}
