// Ties: the one named bus weighs 1 when live.
ghost use Rattle.std.specs.Prelude.{◌≡◌, ◌≤◌};
ghost use Rattle.weighting.specs.Views.{view};
ghost use Rattle.weighting.specs.Meanings.{WeightsOf};
ghost use Rattle.weighting.specs.Owns.{when_live};
ghost use Rattle.weighting.specs.Points.{PointOf};
ghost use Rattle.weighting.specs.Shares.{TieShares};
ghost use Rattle.weighting.specs.Ties.{tie_own, tie_meaning};

use crate::cases::Case;
use crate::each::each;
use crate::weightings::Weighting;
use refusals::Refusal;

// A tie at a bus.
#[derive(Clone, Copy, PartialEq, Eq, Debug)]
pub struct Tie {
    bus: u8,
    ghost within: { bus ≤ 255 },
}

// The tie at a bus.
impl TryFrom<i64> for Tie {
    type Error = Refusal;

    ghost try_from_gives = { PointOf (λ t. t.bus) };

    fn try_from(bus: i64) -> Result<Tie, Refusal> {
        u8::try_from(bus)
            .map(|bus| Tie { bus })
            .map_err(|_| Refusal::PointOutside)
    }
}

impl Tie {
    // One for the tie's bus when it is live.
    pub fn mark(self, case: &Case) -> [u32; 256]
        ensures weights { WeightsOf (tie_meaning self.bus) (view case.now) result }
        ensures shares { TieShares self.bus (view case.now) result }
    {
        each(|bus| u32::from(case.is_live(bus) && bus == self.bus))
    }
}

impl Weighting for Tie {
    ghost meaning = { λ t. tie_meaning t.bus };

    fn weights(&self, case: &Case) -> [u32; 256] {
        self.mark(case)
    }
}
