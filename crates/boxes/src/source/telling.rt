// What a box source tells: the width of each box, and the spacing of each two.
ghost use Rattle.std.specs.Prelude.{◌≡◌, ◌*◌, ◌≤◌, pos};
ghost use Rattle.lengths.specs.Grid.{grid};
ghost use Rattle.boxes.specs.Places.{told, width_rule, spacing_rule};
ghost use Rattle.boxes.specs.Held.{source_places, bounded_source};

use crate::figures::Figures;
use crate::lambda::{spacing, width};
use crate::source::BoxSource;
use lengths::grid::Grid;
use rules::rule::Rule;
use rules::source::{Source, TOO_MANY};

// The grid length of so many lambdas.
fn grid_steps(factor: u32, lambdas: u32) -> Grid
    requires { lambdas ≤ 12 }
    ensures { result ≡ grid (pos (factor * lambdas)) }
{
    Grid {
        steps: (factor as u64 * lambdas as u64) as i64,
    }
}

// The width rule of a box.
fn width_rule(factor: u32, figures: &Figures) -> Rule<Grid>
    ensures { result ≡ width_rule factor figures.now }
{
    Rule::minimum(
        figures.left,
        figures.right,
        grid_steps(factor, width(figures.layer)),
    )
}

// The spacing rule of two boxes, or nothing.
fn spacing_rule(factor: u32, first: &Figures, second: &Figures) -> Option<Rule<Grid>>
    ensures { result ≡ spacing_rule factor first.now second.now }
{
    if first.bottom < second.top && second.bottom < first.top {
        let lambdas = spacing(first.layer, second.layer)?;
        Some(Rule::minimum(first.right, second.left, grid_steps(factor, lambdas)))
    } else {
        None
    }
}

// What the place of the boxes i and j tells.
fn told(factor: u32, i: usize, j: usize, first: &Figures, second: &Figures) -> Option<Rule<Grid>>
    ensures { result ≡ told factor i j first.now second.now }
{
    if i == j {
        Some(width_rule(factor, first))
    } else if i < j {
        spacing_rule(factor, first, second)
    } else {
        None
    }
}

impl Source<Grid> for BoxSource {
    ghost listing = { source_places };

    ghost bounded = { bounded_source };

    fn places(&self) -> usize {
        match self.count {
            Some(count) => count * count,
            None => TOO_MANY,
        }
    }

    fn rule(&self, place: usize) -> Option<Rule<Grid>> {
        let n = self.count?;
        if place >= n * n {
            return None;
        }
        let (i, j) = (place / n, place % n);
        told(self.factor, i, j, &self.rows[i], &self.rows[j])
    }
}
