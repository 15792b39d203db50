// Hubs: each hub bus with a live bus weighs 840, which its live buses share evenly.
ghost use Rattle.std.specs.Prelude.{◌≡◌, ℕ, false, pos, ◌/◌, ◌<◌};
ghost use Rattle.std.specs.Range.{range_inclusive_start, range_inclusive_end, range_inclusive_exhausted};
ghost use Rattle.bus_set.specs.Sets.{SetOf};
ghost use Rattle.hour.specs.Hour.{entries};
ghost use Rattle.hour.specs.Live.{belongs};
ghost use Rattle.weighting.specs.Views.{view};
ghost use Rattle.weighting.specs.Meanings.{WeightsOf};
ghost use Rattle.weighting.specs.Points.{PointOf};
ghost use Rattle.weighting.specs.Members.{MembersOf};
ghost use Rattle.weighting.specs.Shares.{HubShares};
ghost use Rattle.weighting.specs.Hubs.{unit, hub_number, first_of, last_of, of_hub, live_of, hub_weight};
ghost use Rattle.weighting.specs.HubLaws.{hub_meaning};

use crate::cases::Case;
use crate::each::each;
use crate::weightings::Weighting;
use bus_set::{BusSet, both, count, marked};
use hour::book::Book;
use refusals::Refusal;
use std::ops::RangeInclusive;

// The weight of a hub bus: the least number that 1 to 8 divide.
const UNIT: u32 = 840;

// The five hubs, and the ERCOT average of the first four.
#[derive(Clone, Copy, PartialEq, Eq, Debug)]
pub enum Hub {
    North,
    South,
    Houston,
    West,
    Panhandle,
    Average,
}

// The hub of a number.
impl TryFrom<i64> for Hub {
    type Error = Refusal;

    ghost try_from_gives = { PointOf hub_number };

    fn try_from(number: i64) -> Result<Hub, Refusal> {
        match number {
            1 => Ok(Hub::North),
            2 => Ok(Hub::South),
            3 => Ok(Hub::Houston),
            4 => Ok(Hub::West),
            5 => Ok(Hub::Panhandle),
            6 => Ok(Hub::Average),
            _ => Err(Refusal::PointOutside),
        }
    }
}

// The number by which a hub is named.
impl From<Hub> for i64 {
    ghost from_gives = { λ hub number. number ≡ pos (hub_number hub) };

    fn from(hub: Hub) -> i64 {
        match hub {
            Hub::North => 1,
            Hub::South => 2,
            Hub::Houston => 3,
            Hub::West => 4,
            Hub::Panhandle => 5,
            Hub::Average => 6,
        }
    }
}

impl Hub {
    // The numbers of the hub's hub buses.
    fn hub_buses(self) -> RangeInclusive<u8>
        ensures first { range_inclusive_start result ≡ first_of self }
        ensures last { range_inclusive_end result ≡ last_of self }
        ensures whole { range_inclusive_exhausted result ≡ false }
    {
        match self {
            Hub::North => 1..=75,
            Hub::South => 76..=106,
            Hub::Houston => 107..=126,
            Hub::West => 127..=143,
            Hub::Panhandle => 144..=155,
            Hub::Average => 1..=143,
        }
    }

    // Whether a hub bus belongs to the hub.
    pub fn has(self, hub_bus: u8) -> bool
        ensures { result ≡ of_hub self hub_bus }
    {
        self.hub_buses().contains(&hub_bus)
    }

    // The shares of the hub's live buses, in 840ths of their hub bus.
    pub fn shares(self, case: &Case) -> [u32; 256]
        ensures weights { WeightsOf (hub_meaning self) (view case.now) result }
        ensures shares { HubShares self (view case.now) result }
    {
        let counted = Counted::of(case);
        each(|bus| counted.share(self, bus))
    }
}

impl Weighting for Hub {
    ghost meaning = { λ h. hub_meaning h };

    fn weights(&self, case: &Case) -> [u32; 256] {
        self.shares(case)
    }
}

// A case with the members of every hub bus at hand.
#[derive(Drop)]
struct Counted<'a> {
    case: Case<'a>,
    members: [BusSet; 156],
    ghost sorted: { MembersOf (entries case.book.now) members },
}

impl<'a> Counted<'a> {
    fn of(case: &Case<'a>) -> Counted<'a>
        ensures { result.case ≡ case.now }
    {
        Counted {
            case: *case,
            members: members_of(case.book),
        }
    }
}

impl Counted<'_> {
    // What a bus weighs in a hub.
    fn share(&self, hub: Hub, bus: u8) -> u32
        ensures { result ≡ hub_weight hub (view self.now.case) bus }
    {
        let hub_bus = self.case.hub_bus(bus);
        if self.case.is_live(bus) && hub.has(hub_bus) {
            UNIT / self.live_buses(hub_bus)
        } else {
            0
        }
    }

    // How many buses of a hub bus are live.
    fn live_buses(&self, hub_bus: u8) -> u32
        requires { hub_bus < 156 }
        ensures { result ≡ live_of (view self.now.case) hub_bus }
    {
        count(both(self.case.live, self.members[usize::from(hub_bus)]))
    }
}

// The members of every hub bus, in one pass over the buses.
pub fn members_of(book: &Book) -> [BusSet; 156]
    ensures { MembersOf (entries book.now) result }
{
    // Each bus goes to the row of its hub bus, so the rows are filled and not collected.
    let mut all = [[0u64; 4]; 156];
    // Numbered as in `Book::set_of`, and for its reason.
    for (bus, record) in book.buses().enumerate() {
        let k = usize::from(record.hub_bus);
        // A bus below 256 fits: an error to take apart would be no plainer.
        all[k] = marked(all[k], bus as u8, true);
    }
    all
}
