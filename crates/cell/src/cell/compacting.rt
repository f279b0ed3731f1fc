// Packing a cell: the least placement of the rules in force, or a cycle that no row keeps.
ghost use Rattle.std.specs.Prelude.{◌≡◌, ◌≤◌, true, length};
ghost use Rattle.graph.specs.Packing.{Bordered};
ghost use Rattle.graph.specs.Ready.{sound};
ghost use Rattle.cell.specs.Compaction.{Compacts, Sought, room_check};
ghost use Rattle.cell.specs.Findings.{CompactionFinding};
ghost use Rattle.cell.specs.Force.{in_force};
ghost use Rattle.cell.specs.Memory.{book};

use crate::cell::Cell;
use crate::gathered::Gathered;
use faults::fault::CompactionFault;
use graph::cycle::show_cycle;
use graph::numbered::Numbered;
use graph::packing::pack;
use graph::positions::PackingFault;
use lengths::length::Length;
use lengths::stored::Stored;
use rules::source::Source;

// Refuses a row that is too short, then a cycle list that is too short.
fn check_room(marks: usize, row: usize, list: usize) -> Result<(), CompactionFault>
    ensures { result ≡ room_check marks row list }
{
    if row < marks {
        return Err(CompactionFault::ShortRow);
    }
    if list < marks {
        return Err(CompactionFault::ShortList);
    }
    Ok(())
}

// Positions for these rules, or the numbers of a positive cycle of them.
fn settle<L: Length>(
    marks: usize,
    rules: &[Numbered<L>],
    row: &mut [L],
    cycle: &mut [u32],
) -> Result<(), CompactionFault>
    requires sound { sound L.kind marks rules.now ≡ true }
    requires bordered { Bordered L.kind marks rules.now }
    requires room { (marks ≤ length row.old) × (marks ≤ length cycle.old) }
    ensures { Sought L.kind marks rules.now row.old cycle.old result row.new cycle.new }
{
    match pack(marks, rules, row) {
        Ok(()) => Ok(()),
        Err(PackingFault::OverConstrained) => match show_cycle(marks, rules, row, cycle) {
            Ok(Some(length)) => Err(CompactionFault::OverConstrained(length)),
            Ok(None) => unreachable!(),
            Err(_) => unreachable!(),
        },
        Err(PackingFault::Unready) => unreachable!(),
    }
}

impl<'m, L: Length + Stored> Cell<'m, L> {
    // Packs the cell: fills the first entries of the row with the longest path lengths from mark 0. An
    // over-constrained cell is refused, with the numbers of a positive cycle in the list.
    pub fn compact<S: Source<L>>(
        &self,
        source: &S,
        row: &mut [L],
        cycle: &mut [u32],
    ) -> Result<(), CompactionFault>
        ensures does { Compacts L.kind self.now.marks (book self.now) (S.Source.listing source.now) row.old cycle.old result row.new cycle.new }
        ensures right { CompactionFinding L.kind self.now.marks (in_force L.kind self.now.marks (book self.now) (S.Source.listing source.now)) result row.new cycle.new → ⊥ }
    {
        let mut rules = Gathered::new();
        self.gather(source, &mut rules)?;
        check_room(self.marks, row.len(), cycle.len())?;
        settle(self.marks, rules.rules(), row, cycle)
    }
}
