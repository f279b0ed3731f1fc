// The lines that read or change a cell's rules or its source, and what they answer.
use crate::parts::Second;
use crate::replay::Replay;
use crate::saying::{RuleWord, say_done};
use crate::written::Written;
use boxes::figures::Figures;
use rules::rule::Rule;
use std::alloc::AllocError;

impl<L: Written, B: Second> Replay<'_, L, B> {
    pub(crate) fn enter(&mut self, tag: u16, rule: Rule<L>) -> Result<(), AllocError> {
        let done = self.cell.enter(tag, rule);
        say_done(&mut self.out, done.map_err(|fault| fault.number()))
    }

    pub(crate) fn withdraw(&mut self, tag: u16) -> Result<(), AllocError> {
        let done = self.cell.withdraw(tag);
        say_done(&mut self.out, done.map_err(|fault| fault.number()))
    }

    pub(crate) fn look_up(&mut self, tag: u16) -> Result<(), AllocError> {
        match self.cell.look_up(tag).map(RuleWord) {
            Some(rule) => write!(self.out, "rule {rule}"),
            None => write!(self.out, "nothing"),
        }
    }

    pub(crate) fn list_rule(&mut self, rule: Rule<L>) -> Result<(), AllocError> {
        self.parts.rules.push(rule)?;
        write!(self.out, "ok")
    }

    pub(crate) fn offer_box(&mut self, figures: Figures) -> Result<(), AllocError> {
        match self.parts.second.offer(figures) {
            Some(given) => say_done(&mut self.out, given.map_err(|fault| fault.number())),
            None => write!(self.out, "not understood"),
        }
    }
}
