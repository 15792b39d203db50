// Load zones: a live bus of the zone weighs its load.
ghost use Rattle.std.specs.Prelude.{◌≡◌, ℕ, ◌≤◌};
ghost use Rattle.weighting.specs.Views.{view};
ghost use Rattle.weighting.specs.Meanings.{WeightsOf};
ghost use Rattle.weighting.specs.Owns.{when_live};
ghost use Rattle.weighting.specs.Points.{PointOf};
ghost use Rattle.weighting.specs.Shares.{ZoneShares};
ghost use Rattle.weighting.specs.Zones.{zone_own, zone_meaning};

use crate::cases::Case;
use crate::each::each;
use crate::weightings::Weighting;
use refusals::Refusal;

// Load zone 1 to 16.
#[derive(Clone, Copy, PartialEq, Eq, Debug)]
pub struct Zone {
    number: u8,
    ghost within: { (1 ≤ number) × (number ≤ 16) },
}

// The zone of a number.
impl TryFrom<i64> for Zone {
    type Error = Refusal;

    ghost try_from_gives = { PointOf (λ z. z.number) };

    fn try_from(number: i64) -> Result<Zone, Refusal> {
        // A match, since the pattern's limits are the type's invariant: a closure that makes a zone would have to require them.
        match u8::try_from(number) {
            Ok(number @ 1..=16) => Ok(Zone { number }),
            _ => Err(Refusal::PointOutside),
        }
    }
}

impl Zone {
    // The loads of the zone's live buses.
    pub fn loads(self, case: &Case) -> [u32; 256]
        ensures weights { WeightsOf (zone_meaning self.number) (view case.now) result }
        ensures shares { ZoneShares self.number (view case.now) result }
    {
        each(|bus| {
            if case.is_live(bus) && case.zone(bus) == self.number {
                u32::from(case.load(bus))
            } else {
                0
            }
        })
    }
}

impl Weighting for Zone {
    ghost meaning = { λ z. zone_meaning z.number };

    fn weights(&self, case: &Case) -> [u32; 256] {
        self.loads(case)
    }
}
