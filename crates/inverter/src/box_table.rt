// The boxes of a cell as a table.
ghost use Rattle.std.specs.Prelude.{Some};
ghost use Rattle.inverter.specs.Tables.{box_row, box_rows, box_table};

use crate::layers::layer_name;
use boxes::layout_box::LayoutBox;
use std::fmt;

#[derive(Clone, Copy)]
pub struct BoxTable<'a>(pub &'a [LayoutBox]);

#[derive(Clone, Copy)]
struct BoxRows<'a>(&'a [LayoutBox]);

#[derive(Clone, Copy)]
struct BoxRow {
    place: usize,
    made: LayoutBox,
}

impl fmt::Display for BoxRow {
    ghost output = { λ row. Some (box_row row.place row.made.figures) };

    fn fmt<W: fmt::Write>(&self, f: &mut fmt::Formatter<W>) -> fmt::Result {
        let (place, name) = (self.place, layer_name(self.made.layer()));
        let figures = self.made.figures();
        let (left, right) = (figures.left, figures.right);
        let (bottom, top) = (figures.bottom, figures.top);
        write!(f, "{place:>3}  {name:<11}  {left:>4}  {right:>5}")?;
        write!(f, "  {bottom:>6}  {top:>6}\n")
    }
}

impl fmt::Display for BoxRows<'_> {
    ghost output = { λ rows. Some (box_rows rows.0.now) };

    fn fmt<W: fmt::Write>(&self, f: &mut fmt::Formatter<W>) -> fmt::Result {
        for (place, made) in self.0.iter().enumerate() {
            let row = BoxRow { place, made: *made };
            write!(f, "{row}")?;
        }
        Ok(())
    }
}

impl fmt::Display for BoxTable<'_> {
    ghost output = { λ table. Some (box_table table.0.now) };

    fn fmt<W: fmt::Write>(&self, f: &mut fmt::Formatter<W>) -> fmt::Result {
        let rows = BoxRows(self.0);
        write!(f, "box  layer        left  right  bottom     top\n{rows}")
    }
}
