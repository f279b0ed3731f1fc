// A line that calls a cell or changes its source, read from its words.
use crate::number::number;
use crate::written::Written;
use boxes::figures::Figures;
use rules::rule::Rule;
use std::alloc::{AllocError, Global};

// The most entries of a row, a cycle list, a table or a list.
const ENTRY_LIMIT: usize = 70_000;

#[derive(Drop)]
pub(crate) enum Line<L> {
    Enter(u16, Rule<L>),
    Withdraw(u16),
    LookUp(u16),
    Records,
    Source(u32),
    Listed(Rule<L>),
    Outline(Figures),
    Try(Vec<L>),
    Compact(usize, usize),
    Reduce(usize, usize),
}

// Whether a line prints nothing.
pub(crate) fn passed_over(line: &str) -> bool {
    line.is_empty() || line.starts_with('#')
}

fn read_rule<L: Written>(from: &str, to: &str, gap: &str) -> Option<Rule<L>> {
    Some(Rule::minimum(number(from)?, number(to)?, L::read(gap)?))
}

// A number of entries.
fn entries(word: &str) -> Option<usize> {
    let entries = number::<u32>(word)? as usize;
    Some(entries).filter(|entries| *entries <= ENTRY_LIMIT)
}

// Figures hold layers up to 255; every layer above is, as 255 itself, one that no box has.
fn read_box(layer: &str, marks: [&str; 2], ends: [&str; 2]) -> Option<Figures> {
    let layer = number::<u16>(layer)?;
    Some(Figures {
        layer: u8::try_from(layer).unwrap_or(u8::MAX),
        left: number(marks[0])?,
        right: number(marks[1])?,
        bottom: number(ends[0])?,
        top: number(ends[1])?,
    })
}

fn read_row<L: Written>(heap: Global, words: &[&str]) -> Result<Option<Line<L>>, AllocError> {
    if words.len() > ENTRY_LIMIT {
        return Ok(None);
    }
    let mut row = Vec::new(heap);
    for word in words {
        let Some(entry) = L::read(word) else {
            return Ok(None);
        };
        row.push(entry)?;
    }
    Ok(Some(Line::Try(row)))
}

fn read_source<L: Written>(words: &[&str]) -> Option<Line<L>> {
    match words {
        ["source", factor] => Some(Line::Source(number(factor)?)),
        ["rule", from, to, gap] => Some(Line::Listed(read_rule(from, to, gap)?)),
        ["box", layer, left, right, bottom, top] => {
            let figures = read_box(layer, [left, right], [bottom, top])?;
            Some(Line::Outline(figures))
        }
        _ => None,
    }
}

fn read_call<L: Written>(words: &[&str]) -> Option<Line<L>> {
    match words {
        ["enter", tag, from, to, gap] => {
            Some(Line::Enter(number(tag)?, read_rule(from, to, gap)?))
        }
        ["withdraw", tag] => Some(Line::Withdraw(number(tag)?)),
        ["records"] => Some(Line::Records),
        ["lookup", tag] => Some(Line::LookUp(number(tag)?)),
        ["compact", row, cycle] => Some(Line::Compact(entries(row)?, entries(cycle)?)),
        ["reduce", table, list] => Some(Line::Reduce(entries(table)?, entries(list)?)),
        _ => read_source(words),
    }
}

// What a line asks, or nothing where it is not understood.
pub(crate) fn read_line<L: Written>(
    heap: Global,
    line: &str,
) -> Result<Option<Line<L>>, AllocError> {
    let words: Vec<&str> = line.split(' ').collect(heap)?;
    match words.as_slice() {
        ["try", row @ ..] => read_row(heap, row),
        other => Ok(read_call(other)),
    }
}
