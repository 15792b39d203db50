// The size of the grid and the limits of its numbers, and where a table has each number.
ghost use Rattle.std.specs.Prelude.{◌≡◌};
ghost use Rattle.posting.specs.Grids.{inside};
ghost use Rattle.posting.specs.Tables.{place, counts};
ghost use Rattle.posting.specs.Countable.{countable};

// Not those of `hour`: a posting knows nothing of books.
pub const BUSES: usize = 256;

pub const COLUMNS: usize = 32;
// one for each bus and column
pub const PLACES: usize = COLUMNS * BUSES;
// of any posting, either way from 0
pub const MOST_NUMBER: i32 = 2_000_000;
// of a table, either way from 0
pub const MOST_TABLE_NUMBER: i32 = 1_000_000;

// Whether the grid has such a bus and column.
pub fn is_inside(bus: usize, column: usize) -> bool
    ensures { result ≡ inside bus column }
{
    bus < BUSES && column < COLUMNS
}

// Where a table has the number of a bus and column, one column after the other.
pub fn place(bus: usize, column: usize) -> Option<usize>
    ensures { result ≡ place bus column }
{
    is_inside(bus, column).then(|| column * BUSES + bus)
}

// Whether a table may have the number.
pub fn counts(number: i32) -> bool
    ensures { result ≡ counts number }
{
    (-MOST_TABLE_NUMBER..=MOST_TABLE_NUMBER).contains(&number)
}

// The number, where a table may have it.
pub fn counted(number: i64) -> Option<i32>
    ensures { result ≡ countable number }
{
    i32::try_from(number).ok().filter(|number| counts(*number))
}
