// A reduced list as text.
ghost use Rattle.std.specs.Prelude.{Some};
ghost use Rattle.std.specs.List.{flat_map};
ghost use Rattle.inverter.specs.Tables.{list_row, reduced_text};

use crate::layout::MARKS;
use crate::phrases::Columns;
use lengths::grid::Grid;
use rules::rule::Rule;
use std::fmt;

// How many entered rules and rules of the boxes were reduced, and to what.
#[derive(Clone, Copy)]
pub struct Reduced<'a> {
    pub entered: usize,
    pub told: usize,
    pub list: &'a [Rule<Grid>],
}

#[derive(Clone, Copy)]
struct ListRows<'a>(&'a [Rule<Grid>]);

impl fmt::Display for ListRows<'_> {
    ghost output = { λ rows. Some (flat_map list_row rows.0.now) };

    fn fmt<W: fmt::Write>(&self, f: &mut fmt::Formatter<W>) -> fmt::Result {
        for rule in self.0 {
            let rule = Columns(*rule);
            write!(f, "  {rule}\n")?;
        }
        Ok(())
    }
}

impl fmt::Display for Reduced<'_> {
    ghost output = { λ reduced. Some (reduced_text reduced.entered reduced.told reduced.list.now) };

    fn fmt<W: fmt::Write>(&self, f: &mut fmt::Formatter<W>) -> fmt::Result {
        let (entered, told, border) = (self.entered, self.told, MARKS - 1);
        let (count, rows) = (self.list.len(), ListRows(self.list));
        write!(
            f,
            "{entered} entered rules, {told} of the boxes and {border}"
        )?;
        write!(f, " of the border are reduced to {count}:\n{rows}")
    }
}
