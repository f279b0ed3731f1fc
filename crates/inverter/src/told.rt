// How many rules a source tells.
ghost use Rattle.std.specs.Prelude.{◌≡◌, count_by, is_some};

use rules::source::Source;

// A loop, as the proof of a chain over the places does not close: it knows a range item by item, and not as a list.
pub fn told<L: Copy, S: Source<L>>(source: &S) -> usize
    ensures { result ≡ count_by is_some (S.Source.listing source.now) }
{
    let mut count = 0;
    for place in 0..source.places() {
        if source.rule(place).is_some() {
            count += 1;
        }
    }
    count
}
