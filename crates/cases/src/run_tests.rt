// Whole runs, with sources of two makes from turn to turn.
use crate::samples::{rule, steps};
use cell::record::Record;
use either::Either;
use faults::refusal::Refusal;
use lengths::grid::Grid;
use rules::empty::Empty;
use rules::listed::Listed;
use rules::rule::Rule;
use run::run::run;
use run::turn::{Answer, Call, Turn};
use std::alloc::{AllocError, Global};
use std::test::Fail;

type Sources<'a> = Either<Empty, Listed<'a, Grid>>;

// A turn in a cell of four marks.
fn turn<'a>(
    heap: Global,
    call: Call<Grid>,
    source: Sources<'a>,
) -> Result<Turn<Grid, Sources<'a>>, AllocError> {
    Ok(Turn {
        call,
        source,
        row: vec![in heap; steps(77); 5]?,
        cycle: vec![in heap; 77; 5]?,
        table: vec![in heap; steps(77); 16]?,
        list: vec![in heap; rule(7, 7, 7); 4]?,
        answer: None,
    })
}

// The four marks' rules, a maximum that over-constrains them, and the same cell without it.
fn calls() -> [Call<Grid>; 10] {
    [
        Call::Enter(1, rule(0, 1, 2)),
        Call::Enter(2, rule(1, 2, 3)),
        Call::Enter(3, rule(0, 3, 9)),
        Call::Enter(4, rule(3, 1, -5)),
        Call::Enter(4, rule(2, 0, -6)),
        Call::Enter(5, rule(2, 0, -6)),
        Call::Compact,
        Call::Withdraw(5),
        Call::Reduce,
        Call::Compact,
    ]
}

// A turn for each call; only the reduction has a rule from its source, a wider maximum.
fn turns<'a>(
    heap: Global,
    wider: &'a [Rule<Grid>],
) -> Result<Vec<Turn<Grid, Sources<'a>>>, AllocError> {
    let mut turns = Vec::new(heap);
    for call in calls() {
        let source = match call {
            Call::Reduce => Either::Right(Listed { rules: wider }),
            _ => Either::Left(Empty),
        };
        turns.push(turn(heap, call, source)?)?;
    }
    Ok(turns)
}

// The turn of a number, or a failure that there is none.
fn at<'t, 'a>(
    turns: &'t [Turn<Grid, Sources<'a>>],
    number: usize,
) -> Result<&'t Turn<Grid, Sources<'a>>, Fail> {
    match turns.get(number) {
        Some(turn) => Ok(turn),
        None => Err(Fail::new("no such turn")),
    }
}

// A refusal with its number and what goes with it.
fn refused(number: u32, at: Option<usize>) -> Option<Refusal> {
    Some(Refusal {
        number,
        at,
        cause: None,
    })
}

// What a turn was refused with, if it was.
fn refusal(turn: &Turn<Grid, Sources<'_>>) -> Option<Refusal> {
    turn.answer.and_then(Answer::refusal)
}

#[test]
fn a_run_mixes_calls_and_sources(rt: HostRuntime) -> Result<(), Fail> {
    let mut records = [Record::<Grid>::blank(); 8];
    let wider = [rule(2, 0, -7)];
    let mut turns = turns(rt.alloc(), &wider)?;
    run(4, &mut records, &mut turns);
    assert_eq!(rt; refusal(at(&turns, 3)?), None);
    assert_eq!(rt; refusal(at(&turns, 4)?), refused(6, None));
    let over = at(&turns, 6)?;
    assert_eq!(rt; refusal(over), refused(15, Some(4)));
    assert_eq!(rt; over.cycle.as_slice(), &[3, 4, 2, 5, 77][..]);
    let reduced = at(&turns, 8)?;
    assert_eq!(rt; refusal(reduced), None);
    assert_eq!(rt;
        reduced.list.as_slice(),
        &[rule(0, 1, 4), rule(1, 2, 3), rule(2, 3, 2), rule(3, 0, -9)][..]
    );
    let packed = at(&turns, 9)?;
    assert_eq!(rt; refusal(packed), None);
    assert_eq!(rt;
        packed.row.as_slice(),
        &[steps(0), steps(4), steps(7), steps(9), steps(77)][..]
    );
    assert_eq!(rt; records[3].tag, 4);
    Ok(())
}
