// Rules between marks, the check of a rule, and sources of rules.
#![tactic(auto)]

pub mod choice;
pub mod empty;
pub mod fault;
pub mod joined;
pub mod listed;
pub mod rule;
pub mod source;
