// Hours worked through by hand, priced and compared: each row has the hour, the point, and cents with origin or R with a refusal.
#![tactic(auto)]

use hour::book::Book;
use hour::records::Market;
use posting::reference::Reference;
use posting::table::Table;
use pricing::origins::Origin;
use pricing::points::{day_ahead_point, real_time_point};
use refusals::Refusal;
use std::{fmt, io};
use weighting::points::{Kind, Point};

const NORTH: Point = Point {
    kind: Kind::Hub,
    number: 1,
};

fn main(rt: HostRuntime) -> io::Result<()> {
    let rows = Rows { rt: &rt };
    rows.example_hour()?;
    rows.outages()?;
    rows.dead_buses()?;
    rows.moved_reference()?;
    rows.halves()?;
    rows.real_time_runs()?;
    rows.full_hub_bus()
}

// Bus 0 in hub bus 1, buses 1 and 2 in hub bus 2, buses 20 and 21 in load zone 1, all live day-ahead; one constraint.
fn example_book() -> Book {
    let mut book = Book::fresh();
    let _ = book.place(0, 1, 0);
    let _ = book.place(1, 2, 0);
    let _ = book.place(2, 2, 0);
    let _ = book.place(20, 0, 1);
    let _ = book.place(21, 0, 1);
    for bus in [0, 1, 2, 20, 21] {
        let _ = book.set_status(bus, Market::DayAhead, true);
    }
    let _ = book.set_load(20, Market::DayAhead, 300);
    let _ = book.set_load(21, Market::DayAhead, 100);
    let _ = book.set_lambda(2_500_000_000);
    let _ = book.post(0, 1_000);
    book
}

// The shift factors of the example hour in column 0, and one for bus 10.
fn example_factors() -> [i32; 256] {
    // Six of 256 entries, so they are written by place.
    let mut factors = [0; 256];
    factors[0] = 400_000;
    factors[1] = 100_000;
    factors[2] = 200_000;
    factors[10] = 50_000;
    factors[20] = 100_000;
    factors[21] = 500_000;
    factors
}

#[derive(Clone, Copy)]
struct Priced {
    cents: i64,
    origin: Origin,
}

impl fmt::Display for Priced {
    fn fmt<W: fmt::Write>(&self, f: &mut fmt::Formatter<W>) -> fmt::Result {
        let cents = self.cents;
        let letter = self.origin.letter();
        write!(f, "{cents} {letter}")
    }
}

// The rows that are printed, hour by hour.
#[derive(Clone, Copy)]
struct Rows<'a> {
    rt: &'a HostRuntime,
}

impl Rows<'_> {
    fn print<T: fmt::Display + Drop>(
        &self,
        row: &str,
        outcome: Result<T, Refusal>,
    ) -> io::Result<()> {
        match outcome {
            Ok(value) => println!(self.rt; "{row}: {value}"),
            Err(refusal) => {
                let number = refusal.number();
                println!(self.rt; "{row}: R {number}")
            }
        }
    }

    fn price(&self, row: &str, price: Result<(i64, Origin), Refusal>) -> io::Result<()> {
        self.print(row, price.map(|(cents, origin)| Priced { cents, origin }))
    }

    fn placing(&self, row: &str, answer: Result<(), Refusal>) -> io::Result<()> {
        self.print(row, answer.map(|()| "taken"))
    }

    fn day_ahead(&self, row: &str, book: &Book, point: Point) -> io::Result<()> {
        let factors = example_factors();
        self.price(row, day_ahead_point(book, &Table::over(&factors), point))
    }

    // Run 0 at the first price and run 1 at the second, for the one live bus.
    fn real_time(&self, row: &str, book: &Book, first: i32, second: i32) -> io::Result<()> {
        // Two of 512 entries, so they are written by place.
        let mut prices = [0; 512];
        prices[0] = first;
        prices[256] = second;
        self.price(row, real_time_point(book, &Table::over(&prices), NORTH))
    }

    // Averaging over the buses would give North 2267 here.
    fn example_hour(&self) -> io::Result<()> {
        let book = example_book();
        for number in 1..=7 {
            let hub = Point {
                kind: Kind::Hub,
                number,
            };
            self.day_ahead("example hour, hubs 1 to 7", &book, hub)?;
        }
        self.day_ahead("example hour, zone 1", &book, zone(1))?;
        self.day_ahead("example hour, zone 2", &book, zone(2))
    }

    // Dividing by the base count would give North 2425 in the first row.
    fn outages(&self) -> io::Result<()> {
        let mut book = example_book();
        let _ = book.set_outage(0, 0, true);
        self.day_ahead("bus 0 out under 0, North", &book, NORTH)?;
        let _ = book.set_outage(0, 1, true);
        let _ = book.set_outage(0, 2, true);
        self.day_ahead("buses 0 to 2 out under 0, North", &book, NORTH)
    }

    fn dead_buses(&self) -> io::Result<()> {
        let mut book = example_book();
        for bus in 0..3 {
            let _ = book.set_status(bus, Market::DayAhead, false);
        }
        self.day_ahead("buses 0 to 2 dead, North", &book, NORTH)?;
        let _ = book.place(10, 76, 0);
        let _ = book.set_status(10, Market::DayAhead, true);
        self.day_ahead("and bus 10 live in hub bus 76, North", &book, NORTH)?;
        let _ = book.set_status(21, Market::DayAhead, false);
        self.day_ahead("and bus 21 dead, zone 1", &book, zone(1))
    }

    fn moved_reference(&self) -> io::Result<()> {
        let mut book = example_book();
        let _ = book.set_lambda(2_100_000_000);
        let factors = example_factors();
        let layer = Reference::at(Table::over(&factors), 0);
        self.price(
            "at reference bus 0, lambda 2100000000, North",
            day_ahead_point(&book, &layer, NORTH),
        )
    }

    // A price half way between two cents goes to the higher one.
    fn halves(&self) -> io::Result<()> {
        let mut book = Book::fresh();
        let _ = book.set_lambda(0);
        let _ = book.set_status(5, Market::DayAhead, true);
        let factors = [1; 256];
        let table = Table::over(&factors);
        let tie = Point {
            kind: Kind::Tie,
            number: 5,
        };
        let _ = book.post(0, 500_000);
        self.price(
            "minus half a cent, tie 5",
            day_ahead_point(&book, &table, tie),
        )?;
        let _ = book.post(0, -500_000);
        self.price("half a cent, tie 5", day_ahead_point(&book, &table, tie))
    }

    fn real_time_runs(&self) -> io::Result<()> {
        let mut book = Book::fresh();
        let _ = book.place(0, 1, 0);
        let _ = book.set_status(0, Market::RealTime, true);
        let _ = book.enter_run(0, 300, 30, 0);
        let _ = book.enter_run(1, 599, 0, 60);
        self.real_time("runs of 300 s and 599 s, North", &book, 3_000, 4_500)?;
        let _ = book.enter_run(1, 600, 0, 60);
        self.real_time(
            "runs of 300 s and 600 s with adders, North",
            &book,
            3_000,
            4_500,
        )?;
        let _ = book.enter_run(0, 300, 0, 0);
        let _ = book.enter_run(1, 600, 0, 0);
        self.real_time("at -60000 and 3000, North", &book, -60_000, 3_000)?;
        self.real_time("at -30000 in both, North", &book, -30_000, -30_000)
    }

    fn full_hub_bus(&self) -> io::Result<()> {
        let mut book = Book::fresh();
        for bus in 0..7 {
            let _ = book.place(bus, 1, 0);
        }
        self.placing("eighth bus", book.place(7, 1, 0))?;
        self.placing("ninth bus", book.place(8, 1, 0))
    }
}

fn zone(number: i64) -> Point {
    Point {
        kind: Kind::Zone,
        number,
    }
}
