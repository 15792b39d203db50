// A posting read from a slice of numbers, one column of 256 buses after the other.
ghost use Rattle.std.specs.Prelude.{◌≡◌};
ghost use Rattle.posting.specs.Meanings.{table_grid};
ghost use Rattle.posting.specs.Laws.{TableLaws};

use crate::Posting;
use crate::limits::{counts, place};

// The number of a bus and column stands at place column × 256 + bus. A place past the end, and a number that is more than 1,000,000
// away from 0, read as 0.
#[derive(Clone, Copy, PartialEq, Eq, Debug)]
pub struct Table<'a> {
    pub numbers: &'a [i32],
}

impl<'a> Table<'a> {
    // The table over these numbers.
    pub fn over(numbers: &'a [i32]) -> Table<'a>
        ensures made { result.numbers.now ≡ numbers.now }
        ensures laws { TableLaws numbers.now (table_grid result.numbers.now) }
    {
        Table { numbers }
    }
}

impl Posting for Table<'_> {
    ghost grid = { λ t. table_grid t.numbers.now };

    #[tactic(auto, unfolding(crate::specs::Meanings::table_grid))]
    fn number(&self, bus: usize, column: usize) -> i32 {
        // Two steps and no chain of options, which took nearly twice the time for each number.
        let Some(at) = place(bus, column) else {
            return 0;
        };
        match self.numbers.get(at) {
            Some(number) if counts(*number) => *number,
            _ => 0,
        }
    }
}
