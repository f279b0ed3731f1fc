// What the turns of a run tell when they are answered: the rules in force at a turn, the packed row, the reduced list.
use crate::turns::CellTurn;
use cell::origin::Origin;
use graph::numbered::Numbered;
use inverter::layout::steps;
use lengths::grid::Grid;
use rules::rule::Rule;
use rules::source::Source;
use run::turn::{Answer, Call};

// How many rules were entered in these turns and not withdrawn.
pub(crate) fn entered_in(turns: &[CellTurn<'_>]) -> usize {
    let entered = turns
        .iter()
        .filter(|turn| matches!(turn.answer, Some(Answer::Entered(Ok(())))))
        .count();
    let withdrawn = turns
        .iter()
        .filter(|turn| matches!(turn.answer, Some(Answer::Withdrawn(Ok(())))))
        .count();
    entered.saturating_sub(withdrawn)
}

// A turn of a run, and the turns before it.
#[derive(Clone, Copy)]
pub(crate) struct Moment<'t, 's> {
    pub(crate) before: &'t [CellTurn<'s>],
    pub(crate) turn: &'t CellTurn<'s>,
}

impl<'t, 's> Moment<'t, 's> {
    // The moment of the turn at a place, where the run has one.
    pub(crate) fn at(turns: &'t [CellTurn<'s>], place: usize) -> Option<Moment<'t, 's>> {
        let turn = turns.get(place)?;
        let before = &turns[..place];
        Some(Moment { before, turn })
    }

    // The rule that was last entered under a tag.
    fn entered_under(&self, tag: u16) -> Option<Rule<Grid>> {
        self.before.iter().rev().find_map(|turn| match (turn.call, turn.answer) {
            (Call::Enter(under, rule), Some(Answer::Entered(Ok(())))) if under == tag => Some(rule),
            _ => None,
        })
    }

    // The rule that was in force under a number. It stands here and in pack, as one function of both would take two closures:
    // one for the entered rules, one for the source.
    pub(crate) fn numbered(&self, number: u32) -> Option<Numbered<Grid>> {
        let rule = match Origin::try_from(number).ok()? {
            Origin::Entered(tag) => self.entered_under(tag)?,
            Origin::Border(mark) => Rule::minimum(0, mark, steps(0)),
            Origin::Told(place) => self.turn.source.rule(usize::from(place))?,
        };
        Some(Numbered { number, rule })
    }
}

// The row of the last packing.
pub(crate) fn packed_row<'a>(turns: &'a [CellTurn<'_>]) -> &'a [Grid] {
    let packing = turns.iter().rev().find(|turn| matches!(
        turn.answer,
        Some(Answer::Compacted(Ok(())))
    ));
    match packing {
        Some(turn) => &turn.row,
        None => &[],
    }
}

// The list of the last reduction.
pub(crate) fn reduced_list<'a>(turns: &'a [CellTurn<'_>]) -> &'a [Rule<Grid>] {
    let reduced = turns.iter().rev().find_map(|turn| match turn.answer {
        Some(Answer::Reduced(Ok(count))) => turn.list.get(..count),
        _ => None,
    });
    reduced.unwrap_or(&[])
}
