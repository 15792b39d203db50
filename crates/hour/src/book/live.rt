// The live buses of a book, as sets, and how many of them a hub bus has.
ghost use Rattle.std.specs.Prelude.{◌≡◌, ℕ, ◌<◌, ◌≤◌, Bool, true, is_some, None, MatchOption};
ghost use Rattle.std.specs.Fn.{FnReturnsAt};
ghost use Rattle.bus_set.specs.Sets.{member, SetOf};
ghost use Rattle.hour.specs.Hour.{entries, bus_at, constraint_at};
ghost use Rattle.hour.specs.declared.records.Bus.{Bus};
ghost use Rattle.hour.specs.Live.{is_live, base_live, live_under, belongs, live_count, Divides};

use crate::book::Book;
use crate::records::{Bus, Market};
use bus_set::{BusSet, both, count, empty, marked, without};

impl Bus {
    // Whether the bus is live in a market.
    pub fn is_live(&self, market: Market) -> bool
        ensures { result ≡ is_live market self.now }
    {
        self.standing(market).live
    }
}

impl Book {
    // The buses whose records pass the test.
    fn set_of<F>(&self, test: F) -> BusSet
    where
        F: Fn(&Bus) -> bool,
        requires { F.IsAlwaysCallable test }
        ensures { (p : Bus → Bool) → ((x : Bus) (r : Bool) → FnReturnsAt F.Fn test x r → r ≡ p x) → SetOf (λ b. p (bus_at (entries self.now) b)) result }
    {
        let mut set = empty();
        // Numbered by `enumerate` and not by a range of bytes, whose three tests for each bus made a summary a quarter slower.
        for (i, bus) in self.buses.iter().enumerate() {
            // A place of the table is below 256, so the cast is proved to lose nothing; the checker wants an array from a call in a place of its own.
            let next = marked(set, i as u8, test(bus));
            set = next;
        }
        set
    }

    // The live buses of a market's base case.
    pub fn base_live(&self, market: Market) -> BusSet
        ensures { SetOf (base_live (entries self.now) market) result }
    {
        self.set_of(|bus| bus.is_live(market))
    }

    // The buses of a hub bus, live or dead.
    pub fn members(&self, hub_bus: u8) -> BusSet
        ensures { SetOf (belongs (entries self.now) hub_bus) result }
    {
        self.set_of(|bus| bus.hub_bus == hub_bus)
    }

    // The live buses under a posted constraint: live in the day-ahead base case, and with no outage mark.
    pub fn live_under(&self, constraint: u8) -> Option<BusSet>
        ensures posted { is_some result ≡ is_some (constraint_at (entries self.now) constraint) }
        ensures live { MatchOption result (constraint_at (entries self.now) constraint ≡ None) (λ words. SetOf (live_under (entries self.now) constraint) words) }
    {
        let posted = self.constraint(constraint)?;
        Some(without(self.base_live(Market::DayAhead), posted.out))
    }

    // How many of the set's buses belong to the hub bus: for any set, 1 to 8 where one of them does.
    pub fn live_count(&self, live: BusSet, hub_bus: u8) -> u32
        ensures value { result ≡ live_count (entries self.now) (member live) hub_bus }
        ensures divides { Divides (entries self.now) (member live) hub_bus result }
    {
        count(both(live, self.members(hub_bus)))
    }
}
