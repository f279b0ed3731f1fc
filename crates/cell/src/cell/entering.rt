// Entering a rule.
ghost use Rattle.std.specs.Prelude.{◌≡◌, ◌<◌, true, [], ◌∷◌, ◌++◌, length};
ghost use Rattle.cell.specs.Book.{used as usable, sound};
ghost use Rattle.cell.specs.Calls.{admission};
ghost use Rattle.cell.specs.Memory.{book, memory, Enters, Appends};

use crate::cell::Cell;
use crate::memory::used;
use crate::record::Record;
use faults::fault::EntryFault;
use lengths::length::Length;
use rules::rule::Rule;

// Turns away a rule whose tag is in force, then one for which no record is free.
fn admit(known: bool, full: bool) -> Result<(), EntryFault>
    ensures { result ≡ admission known full }
{
    if known {
        return Err(EntryFault::TagInForce);
    }
    if full {
        return Err(EntryFault::Full);
    }
    Ok(())
}

impl<'m, L: Copy> Cell<'m, L> {
    // Writes the next record.
    fn append(&mut self, new: Record<L>)
        requires room { self.old.filled < usable (length (memory self.old)) }
        requires sound { sound self.old.marks (book self.old ++ new ∷ []) ≡ true }
        ensures { Appends self.old new self.new }
    {
        let at = self.filled;
        self.records[at] = new;
        self.filled = at + 1;
    }
}

impl<'m, L: Length> Cell<'m, L> {
    // Enters a rule under a tag; a refusal changes nothing.
    pub fn enter(&mut self, tag: u16, rule: Rule<L>) -> Result<(), EntryFault>
        ensures { Enters L.kind self.old tag rule result self.new }
    {
        if tag == 0 {
            return Err(EntryFault::NoTag);
        }
        rule.check(self.marks)?;
        let known = self.place_of(tag).is_some();
        admit(known, self.filled >= used(self.records.len()))?;
        self.append(Record { tag, rule });
        Ok(())
    }
}
