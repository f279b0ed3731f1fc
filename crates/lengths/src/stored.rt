// Kinds whose lengths take few bytes, so that a table of rules fits in memory. It is no law of lengths: every kind that a
// program would use is one.
ghost use Rattle.std.specs.Prelude.{◌≤◌};
ghost use Rattle.std.proofs.Common.{rules};
ghost use Rattle.lengths.specs.Stored.{stored_bytes};

use crate::grid::Grid;
use crate::strict::Strict;

pub trait Stored: Copy {
    // The law of the trait.
    ghost small: { stored_bytes Self.row ≤ 4096 };
}

impl Stored for Grid {
    ghost small = { Prim.search rules };
}

impl Stored for Strict {
    ghost small = { Prim.search rules };
}
