// The reduced list of a table of distances: groups of tied marks as rings, and the pairs of leaders that no third one splits.
#![tactic(auto)]

mod leading;
mod listing;
mod pairs;
pub mod reduction;
mod rings;
mod sums;
mod table;
