// A small inverter: its layout, what its designer asks of it, and the work on it as text.
#![tactic(auto)]

pub mod box_table;
pub mod cycle;
pub mod designer;
pub mod drawing;
mod layers;
pub mod layout;
pub mod memory;
pub mod phrases;
pub mod reduced;
pub mod rule_table;
pub mod told;
