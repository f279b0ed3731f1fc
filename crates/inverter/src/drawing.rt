// A packed cell as text: its row, and its boxes drawn with ten grid steps to a column.
ghost use Rattle.std.specs.Prelude.{◌≡◌, Some};
ghost use Rattle.inverter.specs.Drawing.{bar, column, drawing, row_text};

use crate::layers::symbol;
use boxes::layout_box::LayoutBox;
use lengths::grid::Grid;
use std::fmt;

// Where the marks of a cell lie.
#[derive(Clone, Copy)]
pub struct Row<'a>(pub &'a [Grid]);

#[derive(Clone, Copy)]
pub struct Drawing<'a> {
    pub boxes: &'a [LayoutBox],
    pub row: &'a [Grid],
}

// A box on the row of its cell.
#[derive(Clone, Copy)]
struct Bar<'a> {
    made: LayoutBox,
    row: &'a [Grid],
}

// The column of a mark.
fn column(row: &[Grid], mark: u16) -> usize
    ensures { result ≡ column row.now mark }
{
    row.get(mark as usize).map_or(
        0,
        |position| (position.steps.unsigned_abs() / 10).min(200) as usize,
    )
}

impl fmt::Display for Row<'_> {
    ghost output = { λ row. Some (row_text row.0.now) };

    fn fmt<W: fmt::Write>(&self, f: &mut fmt::Formatter<W>) -> fmt::Result {
        for position in self.0 {
            let at = position.steps;
            write!(f, " {at}")?;
        }
        Ok(())
    }
}

impl fmt::Display for Bar<'_> {
    ghost output = { λ b. Some (bar b.row.now b.made.figures) };

    fn fmt<W: fmt::Write>(&self, f: &mut fmt::Formatter<W>) -> fmt::Result {
        let figures = self.made.figures();
        let left = column(self.row, figures.left);
        let width = column(self.row, figures.right).saturating_sub(left);
        let symbol = symbol(self.made.layer());
        f.write_str("  ")?;
        // Spaces and symbols are counted out: they are the elements of nothing.
        'before: for _i in 0..left {
            f.write_str(" ")?;
        }
        'within: for _i in 0..width {
            f.write_str(symbol)?;
        }
        f.write_str("\n")
    }
}

impl fmt::Display for Drawing<'_> {
    ghost output = { λ d. Some (drawing d.row.now d.boxes.now) };

    fn fmt<W: fmt::Write>(&self, f: &mut fmt::Formatter<W>) -> fmt::Result {
        for made in self.boxes {
            let (made, row) = (*made, self.row);
            let bar = Bar { made, row };
            write!(f, "{bar}")?;
        }
        Ok(())
    }
}
