// Worked cases, and tables of tests over the whole library.
#![tactic(auto)]

#[cfg(test)]
mod box_tests;
#[cfg(test)]
mod cell_tests;
#[cfg(test)]
mod length_tests;
#[cfg(test)]
mod pack_tests;
#[cfg(test)]
mod reduce_tests;
#[cfg(test)]
mod run_tests;
#[cfg(test)]
mod samples;
#[cfg(test)]
mod source_tests;
pub mod worked;
