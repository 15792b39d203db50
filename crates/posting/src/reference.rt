// A posting read against a reference bus: each number less the reference bus's number in the same column.
ghost use Rattle.std.specs.Prelude.{◌≡◌};
ghost use Rattle.posting.specs.Meanings.{reference_grid};
ghost use Rattle.posting.specs.Laws.{ReferenceLaws};

use crate::Posting;
use crate::limits::{MOST_NUMBER, is_inside};

// The posting below, read against the reference bus. A difference is held to 2,000,000 either way from 0.
#[derive(Clone, Copy, PartialEq, Eq, Debug, Drop)]
pub struct Reference<P> {
    pub below: P,
    pub bus: u8,
}

impl<P: Posting> Reference<P> {
    // The layer over this posting, with this reference bus.
    #[tactic(auto, using(crate::proofs::ReferenceLaws::reference_laws))]
    pub fn at(below: P, bus: u8) -> Reference<P>
        ensures made { result ≡ record { below = below; bus = bus } }
        ensures laws { ReferenceLaws (P.Posting.grid below) bus (reference_grid (P.Posting.grid result.below) result.bus) }
    {
        Reference { below, bus }
    }
}

impl<P: Posting> Posting for Reference<P> {
    ghost grid = { λ s. reference_grid (P.Posting.grid s.below) s.bus };

    #[tactic(auto, unfolding(crate::specs::Meanings::reference_grid))]
    fn number(&self, bus: usize, column: usize) -> i32 {
        if !is_inside(bus, column) {
            return 0;
        }
        let own = self.below.number(bus, column);
        let reference = self.below.number(usize::from(self.bus), column);
        (own - reference).clamp(-MOST_NUMBER, MOST_NUMBER)
    }
}
