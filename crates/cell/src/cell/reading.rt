// What a cell tells of itself: its marks, how many rules it holds, and the rule under a tag.
ghost use Rattle.std.specs.Prelude.{◌≡◌, ◌≤◌, false, map, length, Some, None, MatchOption, slice_index_or, ◌==◌};
ghost use Rattle.std.specs.List.{find, position};
ghost use Rattle.std.specs.Option.{option_map};
ghost use Rattle.cell.specs.Book.{has_tag, look_up, FoundAt};
ghost use Rattle.cell.specs.Memory.{book, memory};

use crate::cell::Cell;
use crate::record::Record;
use rules::rule::Rule;

// The place of the first record under a tag, or nothing.
fn place_under<L>(book: &[Record<L>], tag: u16) -> Option<usize>
    ensures { result ≡ position (λ r. r.tag == tag) book.now }
{
    book.iter().position(|record| record.tag == tag)
}

// The rule of the first record under a tag, or nothing.
fn rule_under<L: Copy>(book: &[Record<L>], tag: u16) -> Option<Rule<L>>
    ensures { result ≡ option_map (λ r. r.rule) (find (λ r. r.tag == tag) book.now) }
{
    book.iter()
        .find(|record| record.tag == tag)
        .map(|record| record.rule)
}

impl<'m, L: Copy> Cell<'m, L> {
    // The number of marks.
    pub fn marks(&self) -> usize
        ensures { result ≡ self.now.marks }
    {
        self.marks
    }

    // The number of rules in the book.
    pub fn filled(&self) -> usize
        ensures { result ≡ length (book self.now) }
    {
        self.filled
    }

    // What a record of the memory holds, filled or not; nothing past the last.
    pub fn record(&self, place: usize) -> Option<Record<L>>
        ensures { result ≡ slice_index_or (map Some (memory self.now)) place None }
    {
        self.records.get(place).copied()
    }

    // The filled records.
    pub(super) fn book(&self) -> &[Record<L>]
        ensures is { result.now ≡ book self.now }
        ensures few { length result.now ≤ 4096 }
    {
        &self.records[..self.filled]
    }

    // The place of the record under a tag, or nothing.
    pub(super) fn place_of(&self, tag: u16) -> Option<usize>
        ensures { MatchOption result (has_tag (book self.now) tag ≡ false) (FoundAt (book self.now) tag) }
    {
        place_under(self.book(), tag)
    }

    // The rule under a tag, or nothing; there is never one under tag 0.
    pub fn look_up(&self, tag: u16) -> Option<Rule<L>>
        ensures value { result ≡ look_up (book self.now) tag }
        ensures zero { tag ≡ 0 → result ≡ None }
    {
        rule_under(self.book(), tag)
    }
}
