// Packing: positions sought from zeros.
ghost use Rattle.graph.specs.Packing.{PacksFrom};

use crate::graph::Graph;
use crate::numbered::Numbered;
use crate::positions::{PackingFault, clear};
use crate::unready::check_room;
use lengths::length::Length;

// Raises the marks of a row from zero until it keeps every rule.
pub fn pack<L: Length>(
    marks: usize,
    rules: &[Numbered<L>],
    row: &mut [L],
) -> Result<(), PackingFault>
    ensures { PacksFrom L.kind marks rules.now row.old result row.new }
{
    let graph = Graph::new(marks, rules)?;
    check_room(graph.marks, row.len())?;
    clear(graph.marks, row);
    graph.settle(row)
}
