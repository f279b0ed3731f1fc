// Lengths, rules, records and figures that the tests are made of, and the cell of four marks.
use boxes::figures::Figures;
use cell::cell::Cell;
use cell::editing::{Edit, apply};
use lengths::grid::Grid;
use lengths::strict::Strict;
use rules::rule::Rule;

pub(crate) fn steps(steps: i64) -> Grid {
    Grid { steps }
}

pub(crate) fn strict(steps: i64, least: i64) -> Strict {
    Strict { steps, least }
}

pub(crate) fn rule(from: u16, to: u16, gap: i64) -> Rule<Grid> {
    Rule::minimum(from, to, steps(gap))
}

pub(crate) fn figures(layer: u8, left: u16, right: u16, bottom: i32, top: i32) -> Figures {
    Figures {
        layer,
        left,
        right,
        bottom,
        top,
    }
}

// Two minima in a row, a third beside them, and a maximum.
pub(crate) fn four_marks(cell: &mut Cell<'_, Grid>) {
    apply(cell, Edit::Enter(1, rule(0, 1, 2)));
    apply(cell, Edit::Enter(2, rule(1, 2, 3)));
    apply(cell, Edit::Enter(3, rule(0, 3, 9)));
    apply(cell, Edit::Enter(4, Rule::maximum(1, 3, steps(5))));
}
