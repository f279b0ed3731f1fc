// Gathering the rules in force: the boundary rules, those of the book, and those of a source.
ghost use Rattle.std.specs.Prelude.{◌≡◌, ◌+◌, ◌≤◌, ◌++◌, length};
ghost use Rattle.cell.specs.Force.{boundary_rules, book_rules, GathersSource};

use crate::gathered::Gathered;
use crate::origin::Origin;
use crate::record::Record;
use faults::fault::SourceFault;
use graph::numbered::Numbered;
use lengths::length::Length;
use rules::rule::Rule;
use rules::source::{PLACE_LIMIT, Source};

impl<L: Length> Gathered<L> {
    // The boundary rules of so many marks.
    pub(crate) fn add_boundary(&mut self, marks: usize)
        requires marks { (1 ≤ marks) × (marks ≤ 256) }
        requires room { length self.old + marks ≤ 12543 }
        ensures rules { self.new ≡ self.old ++ boundary_rules L.kind marks }
        ensures count { length self.new + 1 ≡ length self.old + marks }
    {
        // A mark is a number and no entry of anything.
        for mark in 1..marks {
            let number = u32::from(Origin::Border(mark as u16));
            let rule = Rule::minimum(0, mark as u16, L::zero());
            self.push(Numbered { number, rule });
        }
    }

    // The rules of a book that fit so many marks.
    pub(crate) fn add_book(&mut self, marks: usize, book: &[Record<L>])
        requires { length self.old + length book.now ≤ 12543 }
        ensures rules { self.new ≡ self.old ++ book_rules L.kind marks book.now }
        ensures count { length self.new ≤ length self.old + length book.now }
    {
        for record in book {
            if record.rule.check(marks).is_ok() {
                let number = u32::from(Origin::Entered(record.tag));
                let rule = record.rule;
                self.push(Numbered { number, rule });
            }
        }
    }

    // The rules of a source; the first unfit place is refused.
    pub(crate) fn add_source<S: Source<L>>(
        &mut self,
        marks: usize,
        source: &S,
    ) -> Result<(), SourceFault>
        requires { length self.old ≤ 4351 }
        ensures { GathersSource L.kind marks (S.Source.listing source.now) self.old result self.new }
    {
        let places = source.places();
        if places > PLACE_LIMIT {
            return Err(SourceFault::TooManyPlaces);
        }
        // A source is no slice: it is asked place by place, each once.
        for place in 0..places {
            if let Some(rule) = source.rule(place) {
                if let Err(cause) = rule.check(marks) {
                    return Err(SourceFault::UnfitPlace(place, cause));
                }
                let number = u32::from(Origin::Told(place as u16));
                self.push(Numbered { number, rule });
            }
        }
        Ok(())
    }
}
