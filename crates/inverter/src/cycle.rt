// Rules that cannot be met together, as text.
ghost use Rattle.std.specs.Prelude.{◌≡◌, Some};
ghost use Rattle.std.specs.List.{flat_map};
ghost use Rattle.lengths.specs.Grid.{grid};
ghost use Rattle.inverter.specs.Tables.{cycle_row, cycle_text, sum_of_gaps};

use crate::phrases::Columns;
use graph::numbered::Numbered;
use lengths::grid::Grid;
use lengths::length::Length;
use std::fmt;

// The rules of a cycle, in their order.
#[derive(Clone, Copy)]
pub struct Cycle<'a>(pub &'a [Numbered<Grid>]);

// What the gaps of a cycle add to.
fn sum_of_gaps(rules: &[Numbered<Grid>]) -> Grid
    ensures { result ≡ sum_of_gaps rules.now }
{
    rules
        .iter()
        .fold(Grid::zero(), |sum, row| sum.sum(row.rule.gap))
}

impl fmt::Display for Cycle<'_> {
    ghost output = { λ cycle. Some (cycle_text cycle.0.now) };

    fn fmt<W: fmt::Write>(&self, f: &mut fmt::Formatter<W>) -> fmt::Result {
        for row in self.0 {
            let (number, rule) = (row.number, Columns(row.rule));
            write!(f, "  rule {number:>6}: {rule}\n")?;
        }
        let sum = sum_of_gaps(self.0).steps;
        write!(f, "  together they ask a mark to lie {sum} beyond itself\n")
    }
}
