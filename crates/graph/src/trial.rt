// The trial of a row: the smallest number of a rule that it breaks.
ghost use Rattle.std.specs.Prelude.{◌≡◌, ◌<◌, ◌≤◌, true, ◌&&◌, length, nat_lt};
ghost use Rattle.graph.specs.Trial.{marks_below, breaks as broken_by, least, Tried};

use crate::numbered::Numbered;
use crate::unready::{Unready, check_room};
use lengths::length::Length;
use rules::rule::Rule;

// Whether both marks of a rule are below `marks`.
fn within<L: Copy>(marks: usize, rule: Rule<L>) -> bool
    ensures { result ≡ (nat_lt rule.from marks && nat_lt rule.to marks) }
{
    (rule.from as usize) < marks && (rule.to as usize) < marks
}

// Whether both marks of every rule are below `marks`.
fn marks_below<L: Copy>(marks: usize, rules: &[Numbered<L>]) -> bool
    ensures { result ≡ marks_below marks rules.now }
{
    rules.iter().all(|listed| within(marks, listed.rule))
}

// Whether a row breaks a rule.
fn breaks<L: Length>(row: &[L], rule: Rule<L>) -> bool
    requires { (rule.from < length row.now) × (rule.to < length row.now) }
    ensures { result ≡ broken_by L.kind row.now rule }
{
    let start = row[rule.from as usize];
    let end = row[rule.to as usize];
    !start.sum(rule.gap).at_most(end)
}

// The smaller of a number and the smallest so far, if there is one.
fn smaller(smallest: Option<u32>, number: u32) -> u32
    ensures { result ≡ least smallest number }
{
    smallest.map_or(number, |least| least.min(number))
}

// The smallest number of a rule that the row breaks, or none where it keeps every rule. Unready where
// the rules cannot be tried: a mark not below `marks`, or a row shorter than that.
pub fn trial<L: Length>(
    marks: usize,
    rules: &[Numbered<L>],
    row: &[L],
) -> Result<Option<u32>, Unready>
    ensures { Tried L.kind marks rules.now row.now result }
{
    check_room(marks, row.len())?;
    if !marks_below(marks, rules) {
        return Err(Unready);
    }
    // A loop, since a closure in a chain could not know that the marks of the rules stand in the row.
    let mut smallest = None;
    for listed in rules {
        if breaks(row, listed.rule) {
            smallest = Some(smaller(smallest, listed.number));
        }
    }
    Ok(smallest)
}
