// A line entered into a book.
ghost use Rattle.std.specs.Prelude.{◌≡◌, ℕ, ◌≤◌, true, false, pos, is_ok, Some, None, Ok, Err, MatchResult};
ghost use Rattle.bounds.specs.Bounds.{UpTo, within};
ghost use Rattle.hour.specs.Hour.{entries};
ghost use Rattle.saved_rows.specs.Order.{eq_z};
ghost use Rattle.saved_rows.specs.Running.{Takes, step, place};
ghost use Rattle.saved_rows.specs.Laws.{Laws};
ghost use Rattle.saved_rows.specs.Entering.{enter, Enters, refused_at, bus_given, bus_put};

use crate::row::{BusRow, Row};
use crate::stage::Stage;
use bounds::{up_to, within};
use faults::{Spot, Why, at};
use hour::book::Book;
use hour::limits::{
    LAST_BUS, LAST_CONSTRAINT, LAST_HUB_BUS, LAST_RUN, LAST_ZONE, MOST_ADDER, MOST_LOAD,
};
use hour::records::Market;
use refusals::Refusal;

// The value of a field as a number from 0 to `last`, or the refusal at that field.
fn limited(field: u64, value: i64, last: u16, refusal: Refusal) -> Result<u16, Spot>
    ensures { UpTo value last (refused_at field refusal) result }
{
    at(field, up_to(value, last, refusal))
}

// The value of a field is at most `most` away from 0, or the refusal at that field.
fn near(field: u64, value: i64, most: u64, refusal: Refusal) -> Result<(), Spot>
    ensures { MatchResult result (λ _. within value most ≡ true) (λ e. (within value most ≡ false) × (e ≡ refused_at field refusal)) }
{
    at(field, within(value, most, refusal))
}

impl BusRow {
    // The values of a bus line, in the order of its fields.
    fn check(self) -> Result<(), Spot>
        ensures { MatchResult result (λ _. is_ok (bus_given self) ≡ true) (λ e. bus_given self ≡ Err e) }
    {
        limited(2, self.bus, LAST_BUS, Refusal::BusOutside)?;
        limited(3, self.hub_bus, LAST_HUB_BUS, Refusal::HubBusOutside)?;
        limited(4, self.zone, LAST_ZONE, Refusal::ZoneOutside)?;
        limited(6, self.day_ahead_load, MOST_LOAD, Refusal::LoadOutside)?;
        limited(8, self.real_time_load, MOST_LOAD, Refusal::LoadOutside)?;
        Ok(())
    }

    // The calls that give a bus its record. Only its hub bus can refuse it, since its values are in their limits.
    fn write(self, book: &mut Book) -> Result<(), Spot>
        requires { is_ok (bus_given self) ≡ true }
        ensures { Enters (bus_put (entries book.old) (bus_given self)) (entries book.old) (entries book.new) result }
    {
        at(3, book.place(self.bus, self.hub_bus, self.zone))?;
        at(
            5,
            book.set_status(self.bus, Market::DayAhead, self.day_ahead_live),
        )?;
        at(
            6,
            book.set_load(self.bus, Market::DayAhead, self.day_ahead_load),
        )?;
        at(
            7,
            book.set_status(self.bus, Market::RealTime, self.real_time_live),
        )?;
        at(
            8,
            book.set_load(self.bus, Market::RealTime, self.real_time_load),
        )
    }
}

impl Row {
    // Enters a line into the book, with `before` lines before it in its text. The book stays as it was where the line is refused.
    pub fn enter(self, book: &mut Book, before: u64) -> Result<(), Spot>
        ensures { Enters (enter (entries book.old) before self) (entries book.old) (entries book.new) result }
    {
        match self {
            Row::Bus(bus) => {
                bus.check()?;
                bus.write(book)
            }
            Row::Lambda { lambda } => at(2, book.set_lambda(lambda)),
            Row::Constraint {
                constraint,
                shadow_price,
            } => {
                limited(2, constraint, LAST_CONSTRAINT, Refusal::ConstraintOutside)?;
                at(3, book.post(constraint, shadow_price))
            }
            Row::Outage { constraint, bus } => {
                limited(2, constraint, LAST_CONSTRAINT, Refusal::ConstraintOutside)?;
                at(3, book.set_outage(constraint, bus, true))
            }
            Row::Run {
                run,
                seconds,
                reserve_adder,
                reliability_adder,
            } => {
                limited(2, run, LAST_RUN, Refusal::RunOutside)?;
                if seconds < 1 {
                    return at(3, Err(Refusal::SecondsOutside));
                }
                near(4, reserve_adder, MOST_ADDER, Refusal::AdderOutside)?;
                near(5, reliability_adder, MOST_ADDER, Refusal::AdderOutside)?;
                at(
                    3,
                    book.enter_run(run, seconds, reserve_adder, reliability_adder),
                )
            }
            Row::End { count } if u64::try_from(count) == Ok(before) => Ok(()),
            Row::End { .. } => Err(Spot::from(Why::Ending)),
        }
    }
}

// Takes the next line of a text that has `before` lines before it: its order is looked at first, and then its values.
// The book stays as it was where the line is refused.
#[tactic(auto, using(crate::proofs::Trip::laws))]
pub fn take(book: &mut Book, stage: Stage, before: u64, row: Row) -> Result<Stage, Spot>
    ensures value { Takes (step (place stage (entries book.old)) before row) (entries book.old) (entries book.new) result }
    ensures laws { Laws }
{
    let after = stage.next(row)?;
    row.enter(book, before)?;
    Ok(after)
}
