// A whole run: a cell is made, and a list of turns applied to it in order.
#![tactic(auto)]

pub mod run;
pub mod turn;
