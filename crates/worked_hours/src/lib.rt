// Hours worked through by hand, as one assertion about the rules of prices, and the first of them worked by the calls.
#![tactic(auto)]

ghost use Rattle.std.specs.Prelude.{◌≡◌, true, pos, Ok};
ghost use Rattle.hour.specs.Hour.{entries, fresh};
ghost use Rattle.hour.specs.Replays.{worked};
ghost use Rattle.pricing.specs.declared.origins.Origin.TheVariants.{Own};
ghost use Rattle.worked_hours.specs.Hours.{hour_n};
ghost use Rattle.worked_hours.specs.Postings.{factors_n};
ghost use Rattle.worked_hours.specs.WorkedHours.{WorkedHours};

use hour::book::Book;
use hour::calls::Call;
use hour::records::Market;
use posting::limits::PLACES;
use posting::table::Table;
use pricing::origins::Origin;
use pricing::points::day_ahead_point;
use refusals::Refusal;
use weighting::points::{Kind, Point};

// The price of North in hour N, worked by its calls on a fresh book. The rules give this price and every other worked one.
pub fn worked_hours() -> Result<(i64, Origin), Refusal>
    ensures rows { WorkedHours }
    ensures north { result ≡ Ok (pos 2225, Own) }
{
    let book = worked_book(&hour_n());
    let factors = factors_n();
    let north = Point {
        kind: Kind::Hub,
        number: 1,
    };
    day_ahead_point(&book, &Table::over(&factors), north)
}

// A fresh book after a list of calls. `replay` of `hour` keeps their answers too, and so needs memory.
fn worked_book(calls: &[Call]) -> Book
    ensures { entries result ≡ worked fresh calls.now }
{
    let mut book = Book::fresh();
    for call in calls {
        let _ = book.apply(call);
    }
    book
}

// The calls of hour N.
fn hour_n() -> [Call; 14]
    ensures { result ≡ hour_n }
{
    [
        place(0, 1, 0),
        live(0),
        place(1, 2, 0),
        live(1),
        place(2, 2, 0),
        live(2),
        place(20, 0, 1),
        live(20),
        place(21, 0, 1),
        live(21),
        load(20, 300),
        load(21, 100),
        Call::Lambda {
            lambda: 2_500_000_000,
        },
        Call::Post {
            constraint: 0,
            shadow_price: 1_000,
        },
    ]
}

// The shift factors of hour N.
fn factors_n() -> [i32; PLACES]
    ensures { result ≡ factors_n }
{
    // Five of 8,192 entries, so they are written by place.
    let mut factors = [0; PLACES];
    factors[0] = 400_000;
    factors[1] = 100_000;
    factors[2] = 200_000;
    factors[20] = 100_000;
    factors[21] = 500_000;
    factors
}

fn place(bus: i64, hub_bus: i64, zone: i64) -> Call
    ensures { result ≡ Call.Place bus hub_bus zone }
{
    Call::Place { bus, hub_bus, zone }
}

fn live(bus: i64) -> Call
    ensures { result ≡ Call.Status bus Market.DayAhead true }
{
    Call::Status {
        bus,
        market: Market::DayAhead,
        live: true,
    }
}

fn load(bus: i64, load: i64) -> Call
    ensures { result ≡ Call.Load bus Market.DayAhead load }
{
    Call::Load {
        bus,
        market: Market::DayAhead,
        load,
    }
}
