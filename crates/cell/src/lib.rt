// The cell: its marks, its rule memory, and the calls on it.
#![tactic(auto)]

pub mod cell;
pub mod editing;
mod force;
mod gathered;
pub mod memory;
pub mod origin;
pub mod record;
mod row;
