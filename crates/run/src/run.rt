// Applying turns to a cell.
ghost use Rattle.std.specs.Prelude.{◌≡◌, [], length, take};
ghost use Rattle.cell.specs.Book.{used};
ghost use Rattle.cell.specs.Calls.{cell_marks};
ghost use Rattle.cell.specs.Memory.{book, memory};
ghost use Rattle.run.specs.Course.{after, after_memory, book_after, memory_after};
ghost use Rattle.run.specs.Promise.{calls, Faithful, Performs};

use crate::turn::{Answer, Call, Turn};
use cell::cell::Cell;
use cell::record::Record;
use lengths::length::Length;
use lengths::stored::Stored;
use rules::source::Source;

// Makes the call of a turn and notes its answer.
pub fn perform<L: Length + Stored, S: Source<L>>(cell: &mut Cell<'_, L>, turn: &mut Turn<L, S>)
    ensures marks { cell.new.marks ≡ cell.old.marks }
    ensures lent { cell.new.records.ghost_name ≡ cell.old.records.ghost_name }
    ensures book { book cell.new ≡ book_after L.kind cell.old.marks (used (length (memory cell.old))) (book cell.old) turn.old.call }
    ensures memory { memory cell.new ≡ memory_after L.kind cell.old.marks (memory cell.old) (book cell.old) turn.old.call }
    ensures performs { Performs L.kind S.Source.listing cell.old.marks (used (length (memory cell.old))) (book cell.old) turn.old turn.new }
{
    match turn.call {
        Call::Enter(tag, rule) => {
            turn.answer = Some(Answer::Entered(cell.enter(tag, rule)));
        }
        Call::Withdraw(tag) => {
            turn.answer = Some(Answer::Withdrawn(cell.withdraw(tag)));
        }
        Call::LookUp(tag) => {
            turn.answer = Some(Answer::Found(cell.look_up(tag)));
        }
        Call::Try => {
            turn.answer = Some(Answer::Tried(cell.try_row(&turn.source, &turn.row)));
        }
        Call::Compact => {
            let answer = cell.compact(&turn.source, &mut turn.row, &mut turn.cycle);
            turn.answer = Some(Answer::Compacted(answer));
        }
        Call::Reduce => {
            let answer = cell.reduce(&turn.source, &mut turn.table, &mut turn.list);
            turn.answer = Some(Answer::Reduced(answer));
        }
    }
}

// Makes a cell of so many marks on these records, and applies the turns to it in order.
pub fn run<L: Length + Stored, S: Source<L>>(
    marks: usize,
    records: &mut [Record<L>],
    turns: &mut [Turn<L, S>],
)
    ensures faithful { Faithful L.kind S.Source.listing (cell_marks marks) (used (length records.old)) [] turns.old turns.new }
    ensures book { take (length (after L.kind (cell_marks marks) (used (length records.old)) (calls turns.old))) records.new ≡ after L.kind (cell_marks marks) (used (length records.old)) (calls turns.old) }
    ensures memory { records.new ≡ after_memory L.kind (cell_marks marks) records.old (calls turns.old) }
{
    let mut cell = Cell::new(marks, records);
    for turn in turns.iter_mut() {
        perform(&mut cell, turn);
    }
}
