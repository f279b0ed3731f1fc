// The memory that is passed for records, and how much of it a cell uses.
ghost use Rattle.std.specs.Prelude.{◌≡◌};
ghost use Rattle.cell.specs.Book.{used as usable};

// The most records that a cell uses.
const RECORD_LIMIT: usize = 4096;

// How many of so many records are used.
pub(crate) fn used(passed: usize) -> usize
    ensures { result ≡ usable passed }
{
    passed.min(RECORD_LIMIT)
}
