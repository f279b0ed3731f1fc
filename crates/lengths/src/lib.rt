// Kinds of length: the trait that every kind keeps, and the two kinds delivered.
#![tactic(auto)]

pub mod grid;
pub mod length;
pub mod stored;
pub mod strict;
