// A case: a book, a market and a set of live buses. Any set will do, not only a base case or one under a constraint.
ghost use Rattle.std.specs.Prelude.{◌≡◌, ◌≤◌, is_some, None, MatchOption};
ghost use Rattle.hour.specs.Hour.{entries, constraint_at};
ghost use Rattle.hour.specs.Live.{base_live, live_under};
ghost use Rattle.hour.specs.declared.records.Market.TheVariants.{DayAhead};
ghost use Rattle.weighting.specs.Views.{CaseOf, view};

use bus_set::{BusSet, contains};
use hour::book::Book;
use hour::records::Market;

// The loads of a case are those of its market.
#[derive(Clone, Copy)]
pub struct Case<'a> {
    pub book: &'a Book,
    pub market: Market,
    pub live: BusSet,
}

impl<'a> Case<'a> {
    // The base case of a market.
    pub fn base(book: &'a Book, market: Market) -> Case<'a>
        ensures { CaseOf book.now market (base_live (entries book.now) market) result }
    {
        Case {
            book,
            market,
            live: book.base_live(market),
        }
    }

    // The day-ahead case under a posted constraint; none where it is not posted.
    pub fn under(book: &'a Book, constraint: u8) -> Option<Case<'a>>
        ensures posted { is_some result ≡ is_some (constraint_at (entries book.now) constraint) }
        ensures case { MatchOption result (constraint_at (entries book.now) constraint ≡ None) (CaseOf book.now DayAhead (live_under (entries book.now) constraint)) }
    {
        let live = book.live_under(constraint)?;
        Some(Case {
            book,
            market: Market::DayAhead,
            live,
        })
    }
}

impl Case<'_> {
    // Whether a bus is live.
    pub fn is_live(&self, bus: u8) -> bool
        ensures { result ≡ (view self.now).live bus }
    {
        contains(self.live, bus)
    }

    // The hub bus of a bus, live or dead.
    pub fn hub_bus(&self, bus: u8) -> u8
        ensures value { result ≡ (view self.now).hub_bus bus }
        ensures most { result ≤ 155 }
    {
        self.book.bus(bus).hub_bus
    }

    // The load zone of a bus, live or dead.
    pub fn zone(&self, bus: u8) -> u8
        ensures { result ≡ (view self.now).zone bus }
    {
        self.book.bus(bus).zone
    }

    // The load of a bus in the case's market, live or dead.
    pub fn load(&self, bus: u8) -> u16
        ensures { result ≡ (view self.now).load bus }
    {
        self.book.bus(bus).standing(self.market).load
    }
}
