// Withdrawing a rule.
ghost use Rattle.std.specs.Prelude.{◌<◌};
ghost use Rattle.cell.specs.Memory.{Strikes, Withdraws};

use crate::cell::Cell;
use faults::fault::WithdrawalFault;

impl<'m, L: Copy> Cell<'m, L> {
    // Frees a filled record: the last one moves into its place. To free the last one nothing is written.
    fn strike(&mut self, place: usize)
        requires { place < self.old.filled }
        ensures { Strikes self.old place self.new }
    {
        let last = self.filled - 1;
        if place == last {
            self.filled = last;
            return;
        }
        let moved = self.records[last];
        self.records[place] = moved;
        self.filled = last;
    }

    // Withdraws the rule under a tag; a refusal changes nothing.
    pub fn withdraw(&mut self, tag: u16) -> Result<(), WithdrawalFault>
        ensures { Withdraws self.old tag result self.new }
    {
        if tag == 0 {
            return Err(WithdrawalFault::NoTag);
        }
        match self.place_of(tag) {
            Some(place) => {
                self.strike(place);
                Ok(())
            }
            None => Err(WithdrawalFault::TagNotInForce),
        }
    }
}
