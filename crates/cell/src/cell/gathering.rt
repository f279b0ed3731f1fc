// Gathering the rules in force at a call.
ghost use Rattle.std.specs.Prelude.{◌≡◌, []};
ghost use Rattle.cell.specs.Force.{Gathers};
ghost use Rattle.cell.specs.Memory.{book};

use crate::cell::Cell;
use crate::gathered::Gathered;
use faults::fault::SourceFault;
use lengths::length::Length;
use rules::source::{PLACE_LIMIT, Source};

impl<'m, L: Length> Cell<'m, L> {
    // The boundary rules, the book's and the source's.
    pub(super) fn gather<S: Source<L>>(
        &self,
        source: &S,
        rules: &mut Gathered<L>,
    ) -> Result<(), SourceFault>
        requires { rules.old ≡ [] }
        ensures { Gathers L.kind self.now.marks (book self.now) (S.Source.listing source.now) result rules.new }
    {
        // Before anything is gathered: a source with too many places costs no more in a full cell than in an empty one.
        if source.places() > PLACE_LIMIT {
            return Err(SourceFault::TooManyPlaces);
        }
        rules.add_boundary(self.marks);
        rules.add_book(self.marks, self.book());
        rules.add_source(self.marks, source)
    }
}
