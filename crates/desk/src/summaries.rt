// What a dispatcher sees of a book: lambda, posted constraints, entered runs, and the live buses of each hub bus.
use bus_set::{BusSet, contains, count};
use hour::book::Book;
use hour::records::Market;
use std::fmt;

// A summary of a book, as text.
#[derive(Drop)]
pub struct Summary<'a> {
    pub book: &'a Book,
}

impl fmt::Display for Summary<'_> {
    fn fmt<W: fmt::Write>(&self, f: &mut fmt::Formatter<W>) -> fmt::Result {
        match self.book.lambda() {
            Some(lambda) => writeln!(f, "lambda: {lambda} fine units")?,
            None => writeln!(f, "lambda: none")?,
        }
        self.write_constraints(f)?;
        self.write_runs(f)?;
        self.write_hub_buses(f)
    }
}

impl Summary<'_> {
    fn write_constraints<W: fmt::Write>(&self, f: &mut fmt::Formatter<W>) -> fmt::Result {
        for (k, constraint) in self.book.constraints().enumerate() {
            if let Some(constraint) = constraint {
                let price = constraint.shadow_price;
                let out = Buses(constraint.out);
                writeln!(f, "constraint {k}: shadow price {price} cents, out:{out}")?;
            }
        }
        Ok(())
    }

    fn write_runs<W: fmt::Write>(&self, f: &mut fmt::Formatter<W>) -> fmt::Result {
        for (k, run) in self.book.runs().enumerate() {
            if let Some(run) = run {
                let seconds = run.seconds;
                let reserve = run.reserve_adder;
                let reliability = run.reliability_adder;
                writeln!(
                    f,
                    "run {k}: {seconds} s, reserve adder {reserve} cents, reliability adder {reliability} cents"
                )?;
            }
        }
        let total = self.book.total_seconds();
        writeln!(f, "seconds in all: {total} of 900")
    }

    // A row for each hub bus that has a bus, with its live buses in either base case and under each posted constraint.
    fn write_hub_buses<W: fmt::Write>(&self, f: &mut fmt::Formatter<W>) -> fmt::Result {
        write!(f, "hub bus  buses  day-ahead  real-time")?;
        for (k, constraint) in self.book.constraints().enumerate() {
            if constraint.is_some() {
                write!(f, "  under {k:>2}")?;
            }
        }
        writeln!(f, "")?;
        // Hub buses are numbers only, with no list of them to go through.
        for hub_bus in 1..=155u8 {
            let size = count(self.book.members(hub_bus));
            if size > 0 {
                write!(f, "{hub_bus:>7}{size:>7}")?;
                self.write_live(hub_bus, f)?;
            }
        }
        Ok(())
    }

    fn write_live<W: fmt::Write>(&self, hub_bus: u8, f: &mut fmt::Formatter<W>) -> fmt::Result {
        for market in [Market::DayAhead, Market::RealTime] {
            let n = self.book.live_count(self.book.base_live(market), hub_bus);
            write!(f, "{n:>11}")?;
        }
        for live in (0..32u8).filter_map(|k| self.book.live_under(k)) {
            let n = self.book.live_count(live, hub_bus);
            write!(f, "{n:>10}")?;
        }
        writeln!(f, "")
    }
}

// The buses of a set, on the rest of a line.
#[derive(Drop)]
struct Buses(BusSet);

impl fmt::Display for Buses {
    fn fmt<W: fmt::Write>(&self, f: &mut fmt::Formatter<W>) -> fmt::Result {
        if count(self.0) == 0 {
            return f.write_str(" none");
        }
        for bus in (0..=255u8).filter(|bus| contains(self.0, *bus)) {
            write!(f, " {bus}")?;
        }
        Ok(())
    }
}
