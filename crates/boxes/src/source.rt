// The box source: the width and spacing rules of up to 90 boxes, under the lambda table.
ghost use Rattle.std.specs.Prelude.{◌≤◌};
ghost use Rattle.std.specs.Option.{ForSome};

use crate::figures::Figures;

pub mod giving;
pub mod telling;

// The most boxes that a source tells rules of.
pub const BOX_LIMIT: usize = 90;

// Plain rows for the figures of 90 boxes, and how many boxes were given: nothing where they were more. A source is copied from turn to
// turn and takes no memory of the heap, so its rows are an array with a count.
#[derive(Clone, Copy)]
pub struct BoxSource {
    factor: u32,
    count: Option<usize>,
    rows: [Figures; BOX_LIMIT],
    ghost few: { ForSome count (λ n. n ≤ 90) },
}
