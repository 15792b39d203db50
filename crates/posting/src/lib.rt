// Postings: a whole number for each bus and column, and the layers that read one posting through another.
#![tactic(auto)]

ghost use Rattle.std.specs.Prelude.{◌≡◌};
ghost use Rattle.posting.specs.Grids.{Grid};

pub mod limits;
pub mod reference;
pub mod table;

// A whole number for each bus and column. A day-ahead column is a constraint and holds shift factors in millionths; a real-time column
// is a run and holds prices in cents. A question is never refused, changes nothing, and put again gets the same number.
pub trait Posting {
    // The grid of numbers is all that a posting means: within 2,000,000 of 0, and 0 outside 256 buses and 32 columns.
    ghost grid: { Self → Grid };

    fn number(&self, bus: usize, column: usize) -> i32
        ensures { result ≡ (grid self.now).at bus column };
}
