// The numbers of a line of saved text. Any number may stand in a line; only entering it into a book holds it to its limits.
ghost use Rattle.std.specs.Prelude.{◌≡◌};
ghost use Rattle.saved_rows.specs.Order.{kind_of, blank_bus, blank_row};
ghost use Rattle.saved_rows.specs.Rows.{bus_numbers};

use crate::stage::Kind;
use hour::records::Bus;

// The numbers of a bus line. Loads are in tenths of a megawatt.
#[derive(Clone, Copy, PartialEq, Eq, Debug, Default)]
pub struct BusRow {
    pub bus: i64,
    pub hub_bus: i64,
    pub zone: i64,
    pub day_ahead_live: bool,
    pub day_ahead_load: i64,
    pub real_time_live: bool,
    pub real_time_load: i64,
}

#[derive(Clone, Copy, PartialEq, Eq, Debug)]
pub enum Row {
    Bus(BusRow),
    Lambda {
        lambda: i64,
    },
    Constraint {
        constraint: i64,
        shadow_price: i64,
    },
    Outage {
        constraint: i64,
        bus: i64,
    },
    Run {
        run: i64,
        seconds: i64,
        reserve_adder: i64,
        reliability_adder: i64,
    },
    // The number of lines before it.
    End {
        count: i64,
    },
}

impl BusRow {
    // The numbers of a bus, from its entry.
    pub fn of(bus: u8, entry: Bus) -> BusRow
        ensures { result ≡ bus_numbers bus entry }
    {
        BusRow {
            bus: i64::from(bus),
            hub_bus: i64::from(entry.hub_bus),
            zone: i64::from(entry.zone),
            day_ahead_live: entry.day_ahead.live,
            day_ahead_load: i64::from(entry.day_ahead.load),
            real_time_live: entry.real_time.live,
            real_time_load: i64::from(entry.real_time.load),
        }
    }

    // Whether all behind the bus is 0.
    fn is_blank(self) -> bool
        ensures { result ≡ blank_bus self }
    {
        self == BusRow {
            bus: self.bus,
            ..BusRow::default()
        }
    }
}

impl Row {
    // The kind of the line, with the numbers that ascend.
    pub fn kind(self) -> Kind
        ensures { result ≡ kind_of self }
    {
        match self {
            Row::Bus(b) => Kind::Bus(b.bus),
            Row::Lambda { .. } => Kind::Lambda,
            Row::Constraint { constraint, .. } => Kind::Constraint(constraint),
            Row::Outage { constraint, bus } => Kind::Outage(constraint, bus),
            Row::Run { run, .. } => Kind::Run(run),
            Row::End { .. } => Kind::End,
        }
    }

    // Whether the line is of a bus and says nothing of it: all behind the bus is 0.
    pub fn is_blank(self) -> bool
        ensures { result ≡ blank_row self }
    {
        match self {
            Row::Bus(b) => b.is_blank(),
            _ => false,
        }
    }
}
