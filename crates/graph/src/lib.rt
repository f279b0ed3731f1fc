// The constraint graph: trials of rows, positions by rounds of raises, cycles, and distances.
#![tactic(auto)]

mod chain;
pub mod cycle;
pub mod distancing;
mod filling;
mod graph;
mod midpoint;
pub mod numbered;
pub mod packing;
pub mod positions;
pub mod ready;
mod rounds;
pub mod trial;
pub mod unready;
