// The turns of a run on the inverter: each call with the source and the memory that it asks for.
use boxes::source::BoxSource;
use either::Either;
use inverter::layout::{MARKS, steps};
use inverter::memory::LIST_ROOM;
use lengths::grid::Grid;
use rules::listed::Listed;
use rules::rule::Rule;
use run::turn::{Call, Turn};
use std::alloc::{AllocError, Global};

// The rules of the boxes, or a list of rules.
pub(crate) type RuleSource<'a> = Either<BoxSource, Listed<'a, Grid>>;

pub(crate) type CellTurn<'a> = Turn<Grid, RuleSource<'a>>;

// What the turns of a run are passed: the source for the calls on the rules in force, and the row for a trial.
#[derive(Clone, Copy)]
pub(crate) struct Passed<'a, 'r> {
    pub(crate) heap: Global,
    pub(crate) source: RuleSource<'a>,
    pub(crate) row: &'r [Grid],
}

// A turn with no memory, whose source tells nothing.
fn bare<'a>(heap: Global, call: Call<Grid>) -> CellTurn<'a> {
    Turn {
        call,
        source: Either::Right(Listed { rules: &[] }),
        row: Vec::new(heap),
        cycle: Vec::new(heap),
        table: Vec::new(heap),
        list: Vec::new(heap),
        answer: None,
    }
}

impl<'a> Passed<'a, '_> {
    fn turn(&self, call: Call<Grid>) -> Result<CellTurn<'a>, AllocError> {
        let heap = self.heap;
        let mut turn = bare(heap, call);
        match call {
            Call::Enter(_, _) | Call::Withdraw(_) | Call::LookUp(_) => {}
            Call::Try => {
                turn.source = self.source;
                turn.row = self.row.to_vec(heap)?;
            }
            Call::Compact => {
                turn.source = self.source;
                turn.row = vec![in heap; steps(0); MARKS]?;
                turn.cycle = vec![in heap; 0u32; MARKS]?;
            }
            Call::Reduce => {
                turn.source = self.source;
                turn.table = vec![in heap; steps(0); MARKS * MARKS]?;
                turn.list = vec![in heap; Rule::minimum(0, 0, steps(0)); LIST_ROOM]?;
            }
        }
        Ok(turn)
    }

    // Adds the turns of these calls behind those that there are.
    pub(crate) fn add_turns(
        &self,
        turns: &mut Vec<CellTurn<'a>>,
        calls: &[Call<Grid>],
    ) -> Result<(), AllocError> {
        for call in calls {
            turns.push(self.turn(*call)?)?;
        }
        Ok(())
    }
}
