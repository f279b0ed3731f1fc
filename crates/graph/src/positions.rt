// Positions: the row raised from a start until it keeps every rule, or the finding that none does.
ghost use Rattle.std.specs.Prelude.{◌≡◌, true, ◌≤◌, length};
ghost use Rattle.graph.specs.Ready.{ready};
ghost use Rattle.graph.specs.Positions.{cleared, Positioned};
ghost use Rattle.graph.specs.declared.positions.PackingFault.TheVariants.{Unready as Unready_fault};

use crate::filling::fill;
use crate::graph::Graph;
use crate::numbered::Numbered;
use crate::unready::Unready;
use lengths::length::Length;

// Why positions or distances are not found: what the engine finds in rules, of which a cell makes a fault of its call.
#[derive(Clone, Copy, PartialEq, Eq, Debug)]
pub enum PackingFault {
    // Marks, rules or memory are not within their limits.
    Unready,
    // The rules have a positive cycle, so that no row keeps them.
    OverConstrained,
}

impl From<Unready> for PackingFault {
    ghost from_gives = { λ _ fault. fault ≡ Unready_fault };

    fn from(_unready: Unready) -> PackingFault {
        PackingFault::Unready
    }
}

// Sets the first `count` entries of a row to zero.
pub(crate) fn clear<L: Length>(count: usize, row: &mut [L])
    requires { count ≤ length row.old }
    ensures { row.new ≡ cleared L.kind count row.old }
{
    fill(count, L::zero(), row);
}

impl<L: Length> Graph<'_, L> {
    // Raises the entries of a row until it keeps every rule, or sets those of the marks to zero.
    pub(crate) fn settle(&self, row: &mut [L]) -> Result<(), PackingFault>
        requires { ready L.kind self.now.marks self.now.rules.now row.old ≡ true }
        ensures { Positioned L.kind self.now.marks self.now.rules.now row.old result row.new }
    {
        match self.rounds(row) {
            None => Ok(()),
            Some(_) => {
                clear(self.marks, row);
                Err(PackingFault::OverConstrained)
            }
        }
    }
}

// Raises the entries of a row until it keeps every rule. Where the rules have a positive cycle, the
// entries of the marks are zero afterwards; a row that is not ready is left as it was.
pub fn positions<L: Length>(
    marks: usize,
    rules: &[Numbered<L>],
    row: &mut [L],
) -> Result<(), PackingFault>
    ensures { Positioned L.kind marks rules.now row.old result row.new }
{
    let graph = Graph::new(marks, rules)?;
    graph.check_start(row)?;
    graph.settle(row)
}
