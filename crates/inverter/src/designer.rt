// What the designer asks of the inverter.
ghost use Rattle.std.specs.Prelude.{◌≡◌};
ghost use Rattle.inverter.specs.Designer.{at_least, at_most, first_calls, narrow_well};

use crate::layout::steps;
use lengths::grid::Grid;
use rules::rule::Rule;
use run::turn::Call;

fn at_least(tag: u16, from: u16, to: u16, gap: i64) -> Call<Grid>
    ensures { result ≡ at_least tag from to gap }
{
    Call::Enter(tag, Rule::minimum(from, to, steps(gap)))
}

fn at_most(tag: u16, from: u16, to: u16, gap: i64) -> Call<Grid>
    ensures { result ≡ at_most tag from to gap }
{
    Call::Enter(tag, Rule::maximum(from, to, steps(gap)))
}

// The well encloses the p-channel half, the gate has its least width, and the two halves stand one above the other.
// The slips after them are refused: a tag in force, a mark that is not there, a full memory, a rule withdrawn twice.
pub fn first_calls() -> [Call<Grid>; 16]
    ensures { result ≡ first_calls }
{
    [
        at_least(1, 1, 3, 60),
        at_least(2, 10, 2, 60),
        at_most(3, 7, 8, 20),
        at_least(4, 3, 5, 0),
        at_most(5, 3, 5, 0),
        at_least(6, 9, 11, 0),
        at_most(7, 9, 11, 0),
        at_least(8, 0, 1, 20),
        Call::LookUp(3),
        at_least(3, 0, 1, 0),
        at_least(9, 0, 13, 0),
        at_least(9, 12, 2, 0),
        Call::Withdraw(8),
        at_least(9, 12, 2, 0),
        Call::Withdraw(8),
        Call::LookUp(8),
    ]
}

// A width of the well that the other rules do not allow.
pub fn narrow_well() -> Rule<Grid>
    ensures { result ≡ narrow_well }
{
    Rule::maximum(1, 2, steps(250))
}
