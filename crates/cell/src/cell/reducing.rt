// Reducing a cell: the shortest list of rules with the placements of the rules in force.
ghost use Rattle.std.specs.Prelude.{◌≡◌, ◌*◌, ◌≤◌, true, length};
ghost use Rattle.graph.specs.Ready.{sound};
ghost use Rattle.cell.specs.Findings.{ReductionFinding};
ghost use Rattle.cell.specs.Force.{in_force};
ghost use Rattle.cell.specs.Reduction.{Reduces, Sought};
ghost use Rattle.cell.specs.Memory.{book};

use crate::cell::Cell;
use crate::gathered::Gathered;
use faults::fault::ReductionFault;
use graph::distancing::distances;
use graph::numbered::Numbered;
use graph::positions::PackingFault;
use lengths::length::Length;
use lengths::stored::Stored;
use reduction::reduction::{ReducingFault, reduce};
use rules::rule::Rule;
use rules::source::Source;

// The distances of these rules, and the list that they reduce to.
fn shorten<L: Length>(
    marks: usize,
    rules: &[Numbered<L>],
    table: &mut [L],
    list: &mut [Rule<L>],
) -> Result<usize, ReductionFault>
    requires sound { sound L.kind marks rules.now ≡ true }
    requires room { marks * marks ≤ length table.old }
    ensures { Sought L.kind marks rules.now table.old list.old result table.new list.new }
{
    match distances(marks, rules, table) {
        Ok(()) => match reduce(marks, table, list) {
            Ok(length) => Ok(length),
            Err(ReducingFault::Short(length)) => Err(ReductionFault::ShortList(length)),
            Err(ReducingFault::Unready) => unreachable!(),
        },
        Err(PackingFault::OverConstrained) => Err(ReductionFault::OverConstrained),
        Err(PackingFault::Unready) => unreachable!(),
    }
}

impl<'m, L: Length + Stored> Cell<'m, L> {
    // Reduces the rules in force: fills the first entries of the table with the distances between marks and the first of the list
    // with the reduced rules, and answers how many these are.
    pub fn reduce<S: Source<L>>(
        &self,
        source: &S,
        table: &mut [L],
        list: &mut [Rule<L>],
    ) -> Result<usize, ReductionFault>
        ensures does { Reduces L.kind self.now.marks (book self.now) (S.Source.listing source.now) table.old list.old result table.new list.new }
        ensures right { ReductionFinding L.kind self.now.marks (in_force L.kind self.now.marks (book self.now) (S.Source.listing source.now)) result list.new → ⊥ }
    {
        let mut rules = Gathered::new();
        self.gather(source, &mut rules)?;
        if table.len() < self.marks * self.marks {
            return Err(ReductionFault::ShortTable);
        }
        shorten(self.marks, rules.rules(), table, list)
    }
}
