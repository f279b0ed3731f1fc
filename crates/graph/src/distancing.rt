// Distances: the longest path lengths between all marks, or the finding that a cycle is positive.
ghost use Rattle.graph.specs.Distancing.{Distanced};

use crate::graph::Graph;
use crate::numbered::Numbered;
use crate::positions::{PackingFault, clear};
use crate::unready::check_room;
use lengths::length::Length;

// Writes the longest path length from each mark to each into a table, the opposite of the far length
// where no path leads. Where the rules have a positive cycle, the entries are zero afterwards.
pub fn distances<L: Length>(
    marks: usize,
    rules: &[Numbered<L>],
    table: &mut [L],
) -> Result<(), PackingFault>
    ensures { Distanced L.kind marks rules.now table.old result table.new }
{
    let graph = Graph::new(marks, rules)?;
    let entries = graph.marks * graph.marks;
    check_room(entries, table.len())?;
    // The first entries of the table serve as a row of positions.
    clear(entries, table);
    match graph.rounds(table) {
        None => {
            graph.begin(table);
            graph.over_marks(table);
            Ok(())
        }
        Some(_) => {
            clear(entries, table);
            Err(PackingFault::OverConstrained)
        }
    }
}
