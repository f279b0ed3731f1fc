// A line that makes a cell.
use crate::number::number;

// The most records of a cell.
pub(crate) const RECORD_LIMIT: usize = 5_000;

#[derive(Clone, Copy)]
pub(crate) enum Kind {
    Grid,
    Strict,
}

#[derive(Clone, Copy)]
pub(crate) struct Making {
    pub(crate) kind: Kind,
    pub(crate) marks: usize,
    pub(crate) records: usize,
}

// No FromStr: its error would say nothing that None does not.
fn read_kind(word: &str) -> Option<Kind> {
    match word {
        "grid" => Some(Kind::Grid),
        "strict" => Some(Kind::Strict),
        _ => None,
    }
}

// A count; none is above 4,294,967,295.
fn count(word: &str) -> Option<usize> {
    number::<u32>(word).map(|count| count as usize)
}

// The cell that a line makes, or nothing where it makes none.
pub(crate) fn read_making(line: &str) -> Option<Making> {
    let rest = line.strip_prefix("cell ")?;
    let (kind, counts) = rest.split_once(' ')?;
    let (marks, records) = counts.split_once(' ')?;
    Some(Making {
        kind: read_kind(kind)?,
        marks: count(marks)?,
        records: count(records).filter(|records| *records <= RECORD_LIMIT)?,
    })
}
