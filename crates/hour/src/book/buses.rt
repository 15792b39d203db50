// The calls that change one bus record: place, status and load.
ghost use Rattle.std.specs.Prelude.{◌≡◌, ℕ, ◌<◌, true, slice_set};
ghost use Rattle.bounds.specs.Bounds.{UpTo};
ghost use Rattle.hour.specs.Sound.{FewPerHubBus, bus_sound, hub_bus_size};
ghost use Rattle.hour.specs.Hour.{entries, with_bus, with_standing, OnlyBus};
ghost use Rattle.hour.specs.Steps.{Did, placed, other_buses, is_full, status_set, load_set, with_status, with_load};

use crate::book::Book;
use crate::limits::{LAST_BUS, LAST_HUB_BUS, LAST_ZONE, MOST_BUSES, MOST_LOAD};
use crate::records::{Bus, Market, Standing};
use bounds::up_to;
use refusals::Refusal;

impl Bus {
    // The bus with this standing in a market.
    fn with_standing(self, market: Market, standing: Standing) -> Bus
        ensures { result ≡ with_standing market standing self }
    {
        match market {
            Market::DayAhead => Bus {
                day_ahead: standing,
                ..self
            },
            Market::RealTime => Bus {
                real_time: standing,
                ..self
            },
        }
    }

    // Beside it the load: each call sets one field, and a closure for the change would be longer than both bodies.
    fn with_status(self, market: Market, live: bool) -> Bus
        ensures { result ≡ with_status self market live }
    {
        let old = self.standing(market);
        self.with_standing(market, Standing { live, ..old })
    }

    fn with_load(self, market: Market, load: u16) -> Bus
        ensures { result ≡ with_load self market load }
    {
        let old = self.standing(market);
        self.with_standing(market, Standing { load, ..old })
    }
}

impl Book {
    // Replaces one bus record; the other 255 stay as they are.
    fn replace_bus(&mut self, bus: u8, new: Bus)
        requires sound { bus_sound new ≡ true }
        requires few { FewPerHubBus (slice_set self.old.buses bus new) }
        ensures value { entries self.new ≡ with_bus (entries self.old) bus new }
        ensures only { OnlyBus bus (entries self.old) (entries self.new) }
    {
        self.buses[usize::from(bus)] = new;
    }

    // How many buses belong to the hub bus, live or dead.
    fn hub_bus_size(&self, hub_bus: u8) -> usize
        ensures { result ≡ hub_bus_size hub_bus self.now.buses }
    {
        // Not `filter` and `count`, which took half as much time again for a place; as a `sum` of ones, that each step fits did not close.
        let mut n = 0;
        for b in self.buses.iter() {
            if b.hub_bus == hub_bus {
                n += 1;
            }
        }
        n
    }

    // How many buses other than this one belong to the hub bus.
    fn other_buses(&self, bus: u8, hub_bus: u8) -> usize
        ensures { result ≡ other_buses (entries self.now) bus hub_bus }
    {
        let all = self.hub_bus_size(hub_bus);
        let own = self.bus(bus).hub_bus;
        if own == hub_bus { all - 1 } else { all }
    }

    // Whether the hub bus has no room for this bus beside its others.
    fn is_full(&self, bus: u8, hub_bus: u8) -> bool
        ensures { result ≡ is_full (entries self.now) bus hub_bus }
    {
        hub_bus > 0 && self.other_buses(bus, hub_bus) >= MOST_BUSES
    }

    // Sets a bus's hub bus and zone.
    pub fn place(&mut self, bus: i64, hub_bus: i64, zone: i64) -> Result<(), Refusal>
        ensures { Did (placed (entries self.old) bus hub_bus zone) (entries self.old) (entries self.new) result }
    {
        let b = byte_up_to(bus, LAST_BUS, Refusal::BusOutside)?;
        let hub = byte_up_to(hub_bus, LAST_HUB_BUS, Refusal::HubBusOutside)?;
        let area = byte_up_to(zone, LAST_ZONE, Refusal::ZoneOutside)?;
        if self.is_full(b, hub) {
            return Err(Refusal::HubBusFull);
        }
        let old = self.bus(b);
        self.replace_bus(
            b,
            Bus {
                hub_bus: hub,
                zone: area,
                ..old
            },
        );
        Ok(())
    }

    // Sets whether a bus is live in a market.
    pub fn set_status(&mut self, bus: i64, market: Market, live: bool) -> Result<(), Refusal>
        ensures { Did (status_set (entries self.old) bus market live) (entries self.old) (entries self.new) result }
    {
        let b = byte_up_to(bus, LAST_BUS, Refusal::BusOutside)?;
        let new = self.bus(b).with_status(market, live);
        self.replace_bus(b, new);
        Ok(())
    }

    // Sets a bus's load in a market.
    pub fn set_load(&mut self, bus: i64, market: Market, load: i64) -> Result<(), Refusal>
        ensures { Did (load_set (entries self.old) bus market load) (entries self.old) (entries self.new) result }
    {
        let b = byte_up_to(bus, LAST_BUS, Refusal::BusOutside)?;
        let amount = up_to(load, MOST_LOAD, Refusal::LoadOutside)?;
        let new = self.bus(b).with_load(market, amount);
        self.replace_bus(b, new);
        Ok(())
    }
}

// The value as a byte from 0 to `last`, or the refusal.
pub(super) fn byte_up_to(value: i64, last: u16, refusal: Refusal) -> Result<u8, Refusal>
    requires { last < 256 }
    ensures { UpTo value last refusal result }
{
    // What `up_to` grants is at most `last`, so the cast is proved to lose nothing. An `up_to` over a trait of the widths is no plainer:
    // a `last` of any width carries no bound, so each width would need a method that tells it.
    up_to(value, last, refusal).map(|n| n as u8)
}
