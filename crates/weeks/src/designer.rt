// What the designer does to the inverter, week by week.
use inverter::designer::{first_calls, narrow_well};
use lengths::grid::Grid;
use run::turn::Call;
use std::alloc::{AllocError, Global};

// The calls of a week, and what they are about.
#[derive(Drop)]
pub(crate) struct Week {
    pub(crate) title: &'static str,
    pub(crate) calls: Vec<Call<Grid>>,
}

impl Week {
    fn new(heap: Global, title: &'static str, calls: &[Call<Grid>]) -> Result<Week, AllocError> {
        Ok(Week {
            title,
            calls: calls.to_vec(heap)?,
        })
    }
}

fn packing() -> [Call<Grid>; 3] {
    [Call::Try, Call::Compact, Call::Reduce]
}

// Rule 9 gives its record to a width of the well that the other rules do not allow.
fn narrowing() -> [Call<Grid>; 4] {
    [
        Call::Withdraw(9),
        Call::Enter(10, narrow_well()),
        Call::Compact,
        Call::Reduce,
    ]
}

fn widening() -> [Call<Grid>; 3] {
    [Call::Withdraw(10), Call::Compact, Call::Reduce]
}

pub(crate) fn weeks(heap: Global) -> Result<[Week; 4], AllocError> {
    Ok([
        Week::new(
            heap,
            "The designer's rules, in a memory of 8 records",
            &first_calls(),
        )?,
        Week::new(
            heap,
            "The row drawn by hand is tried, the cell packed and its rules reduced",
            &packing(),
        )?,
        Week::new(heap, "The well is to be no wider than 250", &narrowing())?,
        Week::new(heap, "The well may be as wide as it has to be", &widening())?,
    ])
}
