// The reduced list of rules: rings of tied marks, then the pairs of leaders that no third leader splits.
ghost use Rattle.std.specs.Prelude.{◌≡◌, length};
ghost use Rattle.reduction.specs.Listing.{Appends, reduced, Reduced};

use crate::leading::Leaders;
use crate::listing::Laying;
use crate::table::Table;
use lengths::length::Length;
use rules::rule::Rule;

// Why a table of distances is not reduced, of which a cell makes a fault of its call.
#[derive(Clone, Copy, PartialEq, Eq, Debug)]
pub enum ReducingFault {
    // Marks or table are not within their limits.
    Unready,
    // So many rules have no room in the list.
    Short(usize),
}

impl<L: Length> Leaders<'_, L> {
    // Lays the reduced list, and says how many rules it has.
    fn put_rules(&self, list: &mut [Rule<L>]) -> usize
        ensures { Appends (reduced L.kind self.now.table.marks self.now.table.entries.now) list.old 0 list.new result }
    {
        let mut laying = Laying { list, count: 0 };
        self.put_rings(&mut laying);
        self.put_all_pairs(&mut laying);
        laying.count
    }

    // How many rules the reduced list has: they are laid nowhere.
    fn count_rules(&self) -> usize
        ensures { result ≡ length (reduced L.kind self.now.table.marks self.now.table.entries.now) }
    {
        let mut nowhere: [Rule<L>; 0] = [];
        self.put_rules(&mut nowhere)
    }
}

// Writes the reduced list of a table of distances to the front of a list, if that is long enough, and says how many rules it has.
pub fn reduce<L: Length>(
    marks: usize,
    table: &[L],
    list: &mut [Rule<L>],
) -> Result<usize, ReducingFault>
    ensures { Reduced L.kind marks table.now list.old result list.new }
{
    let table = Table::new(marks, table).ok_or(ReducingFault::Unready)?;
    let leaders = Leaders::new(table);
    let count = leaders.count_rules();
    if list.len() < count {
        return Err(ReducingFault::Short(count));
    }
    leaders.put_rules(list);
    Ok(count)
}
