// Kinds of length as words: how a length is read and written. The words are of this program's format: FromStr and Display beside the kinds
// themselves would promise them to everybody.
use crate::number::number;
use lengths::grid::Grid;
use lengths::length::Length;
use lengths::stored::Stored;
use lengths::strict::Strict;
use std::fmt;

pub(crate) trait Written: Length + Stored + Clone {
    fn read(word: &str) -> Option<Self>;

    fn write<W: fmt::Write>(self, f: &mut fmt::Formatter<W>) -> fmt::Result;

    // What fills the memory that a call is lent.
    fn seventy_seven() -> Self;
}

impl Written for Grid {
    fn read(word: &str) -> Option<Grid> {
        let steps = number(word)?;
        Some(Grid { steps })
    }

    fn write<W: fmt::Write>(self, f: &mut fmt::Formatter<W>) -> fmt::Result {
        let steps = self.steps;
        write!(f, "{steps}")
    }

    fn seventy_seven() -> Grid {
        Grid { steps: 77 }
    }
}

impl Written for Strict {
    fn read(word: &str) -> Option<Strict> {
        let (steps, least) = word.split_once(',')?;
        Some(Strict {
            steps: number(steps)?,
            least: number(least)?,
        })
    }

    fn write<W: fmt::Write>(self, f: &mut fmt::Formatter<W>) -> fmt::Result {
        let Strict { steps, least } = self;
        write!(f, "{steps},{least}")
    }

    fn seventy_seven() -> Strict {
        Strict {
            steps: 77,
            least: 77,
        }
    }
}
