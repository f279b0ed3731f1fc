// The rules of the boxes as a table.
ghost use Rattle.std.specs.Prelude.{Some};
ghost use Rattle.inverter.specs.Tables.{place_row, rule_rows, rule_table};

use crate::told::told;
use boxes::source::BoxSource;
use cell::origin::Origin;
use lengths::grid::Grid;
use rules::rule::Rule;
use rules::source::Source;
use std::fmt;

#[derive(Clone, Copy)]
pub struct RuleTable<'a>(pub &'a BoxSource);

#[derive(Clone, Copy)]
struct RuleRows<'a>(&'a BoxSource);

// The rule at a place, if any, under its number.
#[derive(Clone, Copy)]
struct RuleRow {
    number: u32,
    rule: Option<Rule<Grid>>,
}

impl fmt::Display for RuleRow {
    ghost output = { λ row. Some (place_row (row.number, row.rule)) };

    fn fmt<W: fmt::Write>(&self, f: &mut fmt::Formatter<W>) -> fmt::Result {
        let Some(rule) = self.rule else {
            return Ok(());
        };
        let number = self.number;
        let (from, to, gap) = (rule.from, rule.to, rule.gap.steps);
        write!(f, "{number:>6}  {from:>4}  {to:>4}  {gap:>8}\n")
    }
}

impl fmt::Display for RuleRows<'_> {
    ghost output = { λ rows. Some (rule_rows rows.0.now) };

    fn fmt<W: fmt::Write>(&self, f: &mut fmt::Formatter<W>) -> fmt::Result {
        // A source is no slice: it is asked place by place.
        for place in 0..self.0.places() {
            let row = RuleRow {
                number: u32::from(Origin::Told(place as u16)),
                rule: self.0.rule(place),
            };
            write!(f, "{row}")?;
        }
        Ok(())
    }
}

impl fmt::Display for RuleTable<'_> {
    ghost output = { λ table. Some (rule_table table.0.now) };

    fn fmt<W: fmt::Write>(&self, f: &mut fmt::Formatter<W>) -> fmt::Result {
        let (rows, count) = (RuleRows(self.0), told(self.0));
        write!(
            f,
            "rule    from    to  at least\n{rows}{count} rules from the boxes\n"
        )
    }
}
