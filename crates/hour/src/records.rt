// The records of one operating hour, as plain values. Only a book holds them to their limits: as ghost fields of the
// records, every step of the rules would have to carry their proof.
ghost use Rattle.std.specs.Prelude.{◌≡◌};
ghost use Rattle.hour.specs.Hour.{standing_of};

use bus_set::BusSet;

// The market whose status and load are meant.
#[derive(Clone, Copy, PartialEq, Eq, Debug)]
pub enum Market {
    DayAhead,
    RealTime,
}

// What a bus is in one market. The load is in tenths of a megawatt, 0 to 10,000.
#[derive(Clone, Copy, PartialEq, Eq, Debug, Default)]
pub struct Standing {
    pub live: bool,
    pub load: u16,
}

// A bus. Its hub bus is 1 to 155 and its load zone 1 to 16, and 0 stands for none, as in the calls and the texts.
#[derive(Clone, Copy, PartialEq, Eq, Debug, Default)]
pub struct Bus {
    pub hub_bus: u8,
    pub zone: u8,
    pub day_ahead: Standing,
    pub real_time: Standing,
}

// A posted constraint. The shadow price is within 1,000,000 cents of 0; a bus in `out` is out under the constraint.
#[derive(Clone, Copy, PartialEq, Eq, Debug)]
pub struct Constraint {
    pub shadow_price: i64,
    pub out: BusSet,
}

// An entered run of the real-time dispatch: 1 to 900 seconds, and adders within 1,000,000 cents of 0.
#[derive(Clone, Copy, PartialEq, Eq, Debug)]
pub struct Run {
    pub seconds: u16,
    pub reserve_adder: i64,
    pub reliability_adder: i64,
}

impl Bus {
    // What the bus is in a market.
    pub fn standing(&self, market: Market) -> Standing
        ensures { result ≡ standing_of market self.now }
    {
        match market {
            Market::DayAhead => self.day_ahead,
            Market::RealTime => self.real_time,
        }
    }
}
