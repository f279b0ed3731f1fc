// Replays calls on cells, read as text from standard input.
#![tactic(auto)]

mod editing;
mod line;
mod making;
mod memory;
mod number;
mod parts;
mod replay;
mod saying;
mod working;
mod written;

use boxes::source::BoxSource;
use lengths::grid::Grid;
use lengths::strict::Strict;
use line::passed_over;
use making::{Kind, read_making};
use replay::replay_cell;
use rules::empty::Empty;
use std::io::Read;

// Before the first cell no line is understood, and none of those is read again; the lines of a cell are read where it is made.
fn replay_all(rt: &HostRuntime, lines: &[&str]) -> anyhow::Result<()> {
    let first = lines.iter().position(|line| read_making(line).is_some());
    let (before, cells) = lines.split_at(first.unwrap_or(lines.len()));
    for line in before {
        if !passed_over(line) {
            println!(rt; "not understood")?;
        }
    }
    for (i, line) in cells.iter().enumerate() {
        if let Some(new) = read_making(line) {
            let rest = &cells[i + 1..];
            match new.kind {
                Kind::Grid => replay_cell::<Grid, BoxSource>(rt, new, rest)?,
                Kind::Strict => replay_cell::<Strict, Empty>(rt, new, rest)?,
            }
        }
    }
    Ok(())
}

// A byte that is no text is a character of no word, so that only its own line is not understood.
fn run(rt: &HostRuntime) -> anyhow::Result<()> {
    let heap = rt.alloc();
    let mut bytes = Vec::new(heap);
    rt.stdin().read_to_end(&mut bytes)?;
    let text = String::from_utf8_lossy(heap, &bytes)?;
    let lines: Vec<&str> = text.split('\n').collect(heap)?;
    replay_all(rt, &lines)
}

fn main(rt: HostRuntime) -> anyhow::Result<()> {
    run(&rt)
}
