// Whether positions can be sought from a row: a near length for each mark of a graph.
ghost use Rattle.std.specs.Prelude.{◌≡◌, true, false, ◌≤◌, length, take, MatchResult};
ghost use Rattle.graph.specs.Ready.{all_near, ready as is_ready};

use crate::graph::Graph;
use crate::numbered::Numbered;
use crate::unready::{Unready, check_room};
use lengths::length::Length;

// Whether the first `marks` lengths of a row are near enough to start from.
fn all_near<L: Length>(marks: usize, row: &[L]) -> bool
    requires { marks ≤ length row.now }
    ensures { result ≡ all_near L.kind (take marks row.now) }
{
    row[..marks]
        .iter()
        .all(|entry| entry.measure() <= 1_000_000_000_000)
}

impl<L: Length> Graph<'_, L> {
    // Refuses a row from which positions cannot be sought.
    pub(crate) fn check_start(&self, row: &[L]) -> Result<(), Unready>
        ensures { MatchResult result (λ _. is_ready L.kind self.now.marks self.now.rules.now row.now ≡ true) (λ _. is_ready L.kind self.now.marks self.now.rules.now row.now ≡ false) }
    {
        check_room(self.marks, row.len())?;
        if all_near(self.marks, row) {
            Ok(())
        } else {
            Err(Unready)
        }
    }
}

// Sound rules, and a row with a near length for each mark.
pub fn ready<L: Length>(marks: usize, rules: &[Numbered<L>], row: &[L]) -> bool
    ensures { result ≡ is_ready L.kind marks rules.now row.now }
{
    match Graph::new(marks, rules) {
        Ok(graph) => graph.check_start(row).is_ok(),
        Err(_) => false,
    }
}
