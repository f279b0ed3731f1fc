// The two parts of a cell's source: listed rules, and what takes boxes where the cell's kind has any.
use boxes::fault::BoxFault;
use boxes::figures::Figures;
use boxes::layout_box::LayoutBox;
use boxes::source::BoxSource;
use rules::empty::Empty;
use rules::joined::Joined;
use rules::listed::Listed;
use rules::rule::Rule;
use std::alloc::Global;

// The part after the listed one.
pub(crate) trait Second: Copy {
    // The part with no boxes, of so many grid steps for one lambda.
    fn bare(factor: u32) -> Self;

    // Gives the part a box of these figures, or tells why there is none; nothing where it takes no boxes.
    fn offer(&mut self, figures: Figures) -> Option<Result<(), BoxFault>>;
}

impl Second for BoxSource {
    fn bare(factor: u32) -> BoxSource {
        BoxSource::new(factor)
    }

    fn offer(&mut self, figures: Figures) -> Option<Result<(), BoxFault>> {
        Some(LayoutBox::new(figures).map(|made| self.give(made)))
    }
}

impl Second for Empty {
    fn bare(_factor: u32) -> Empty {
        Empty
    }

    fn offer(&mut self, _figures: Figures) -> Option<Result<(), BoxFault>> {
        None
    }
}

#[derive(Drop)]
pub(crate) struct Parts<L, B> {
    pub(crate) rules: Vec<Rule<L>>,
    pub(crate) second: B,
}

impl<L: Copy, B: Second> Parts<L, B> {
    // A source with no rules and no boxes.
    pub(crate) fn bare(heap: Global, factor: u32) -> Parts<L, B> {
        Parts {
            rules: Vec::new(heap),
            second: B::bare(factor),
        }
    }

    // The source that a call is passed.
    pub(crate) fn joined(&self) -> Joined<Listed<'_, L>, B> {
        Joined {
            first: Listed { rules: &self.rules },
            second: self.second,
        }
    }
}
