// Checking an outsider's row.
ghost use Rattle.std.specs.Prelude.{◌≡◌, ◌≤◌, length, take};
ghost use Rattle.cell.specs.Trial.{is_zero, may_lie, bad_mark};

use lengths::length::Length;

// The largest measure of a position.
const ROW_LIMIT: u64 = 10_000_000_000_000;

// A kind of length has an order and no equality: zero is what is at most zero, and zero at most it.
fn is_zero<L: Length>(x: L) -> bool
    ensures { result ≡ is_zero L.kind x }
{
    x.measure() <= ROW_LIMIT && (x.at_most(L::zero()) && L::zero().at_most(x))
}

fn may_lie<L: Length>(mark: usize, x: L) -> bool
    ensures { result ≡ may_lie L.kind mark x }
{
    if mark == 0 {
        is_zero(x)
    } else {
        x.measure() <= ROW_LIMIT
    }
}

// The first of so many marks that may not lie where the row puts it.
pub(crate) fn first_bad_mark<L: Length>(marks: usize, row: &[L]) -> Option<usize>
    requires { marks ≤ length row.now }
    ensures { result ≡ bad_mark L.kind 0 (take marks row.now) }
{
    // A loop: the proof of a search by the iterator, whose closure sees the mark beside the length, did not close.
    for (mark, x) in row[..marks].iter().enumerate() {
        if !may_lie(mark, *x) {
            return Some(mark);
        }
    }
    None
}
