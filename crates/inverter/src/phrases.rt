// What a call asks, what a rule asks, and what a look-up and a trial answer, in words.
ghost use Rattle.std.specs.Prelude.{Some};
ghost use Rattle.inverter.specs.Phrases.{call_text, found_text, rule_columns, rule_text, trial_text};

use lengths::grid::Grid;
use rules::rule::Rule;
use run::turn::Call;
use std::fmt;

// What a rule asks.
#[derive(Clone, Copy)]
pub struct Phrase(pub Rule<Grid>);

// What a rule asks, in columns. A type of its own, as a width in each place would make the phrase harder to read.
#[derive(Clone, Copy)]
pub(crate) struct Columns(pub(crate) Rule<Grid>);

// What an edit or a look-up asks, before its answer; the answers to the other calls tell what was asked.
#[derive(Clone, Copy)]
pub struct Asked(pub Call<Grid>);

// What a look-up finds.
#[derive(Clone, Copy)]
pub struct Found(pub Option<Rule<Grid>>);

// What the trial of a row answers: the number of a rule that it breaks, or 0.
#[derive(Clone, Copy)]
pub struct Verdict(pub u32);

impl fmt::Display for Phrase {
    ghost output = { λ phrase. Some (rule_text phrase.0) };

    fn fmt<W: fmt::Write>(&self, f: &mut fmt::Formatter<W>) -> fmt::Result {
        let (from, to, gap) = (self.0.from, self.0.to, self.0.gap.steps);
        write!(f, "{to} at least {gap} beyond {from}")
    }
}

impl fmt::Display for Columns {
    ghost output = { λ columns. Some (rule_columns columns.0) };

    fn fmt<W: fmt::Write>(&self, f: &mut fmt::Formatter<W>) -> fmt::Result {
        let (from, to, gap) = (self.0.from, self.0.to, self.0.gap.steps);
        write!(f, "{to:>2} at least {gap:>4} beyond {from:>2}")
    }
}

impl fmt::Display for Asked {
    ghost output = { λ asked. Some (call_text asked.0) };

    fn fmt<W: fmt::Write>(&self, f: &mut fmt::Formatter<W>) -> fmt::Result {
        match self.0 {
            Call::Enter(tag, rule) => {
                let rule = Phrase(rule);
                write!(f, "enter {tag}: {rule}: ")
            }
            Call::Withdraw(tag) => write!(f, "withdraw {tag}: "),
            Call::LookUp(tag) => write!(f, "look up {tag}: "),
            Call::Try | Call::Compact | Call::Reduce => Ok(()),
        }
    }
}

impl fmt::Display for Found {
    ghost output = { λ found. Some (found_text found.0) };

    fn fmt<W: fmt::Write>(&self, f: &mut fmt::Formatter<W>) -> fmt::Result {
        match self.0 {
            Some(rule) => {
                let rule = Phrase(rule);
                write!(f, "{rule}")
            }
            None => f.write_str("nothing"),
        }
    }
}

impl fmt::Display for Verdict {
    ghost output = { λ verdict. Some (trial_text verdict.0) };

    fn fmt<W: fmt::Write>(&self, f: &mut fmt::Formatter<W>) -> fmt::Result {
        match self.0 {
            0 => f.write_str("keeps all rules in force"),
            number => write!(f, "breaks rule {number}"),
        }
    }
}
