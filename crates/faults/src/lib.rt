// Why a call on a cell is refused: the faults, their numbers, and the values that go with them.
#![tactic(auto)]

pub mod fault;
pub mod refusal;
