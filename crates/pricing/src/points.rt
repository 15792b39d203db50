// Prices of points in each market, with what they hang on.
ghost use Rattle.day_ahead.specs.Prices.{day_ahead_price};
ghost use Rattle.real_time.specs.Prices.{real_time_price};
ghost use Rattle.pricing.specs.Points.{PricedAt};
ghost use Rattle.pricing.specs.PointFacts.{DayAheadFactsDecide, RealTimeFactsDecide, PointReferenceStays};

use crate::markets::{InMarket, point_price};
use crate::origins::Origin;
use hour::book::Book;
use hour::records::Market;
use posting::Posting;
use refusals::Refusal;
use weighting::points::Point;

// The day-ahead price of a point with its origin. Only the live facts of the weighting that it takes count, and another reference bus
// leaves it.
pub fn day_ahead_point<'a, P: Posting>(
    book: &'a Book,
    posting: &'a P,
    point: Point,
) -> Result<(i64, Origin), Refusal>
    ensures value { PricedAt (λ m. day_ahead_price m (P.Posting.grid posting.now) book.now) point result }
    ensures facts { DayAheadFactsDecide point (P.Posting.grid posting.now) book.now result }
    ensures reference { PointReferenceStays point (P.Posting.grid posting.now) book.now result }
{
    let market = InMarket {
        book,
        posting,
        market: Market::DayAhead,
    };
    point_price(&market, point)
}

// The real-time price of a point with its origin. Only the live facts of the weighting that it takes count.
pub fn real_time_point<'a, P: Posting>(
    book: &'a Book,
    posting: &'a P,
    point: Point,
) -> Result<(i64, Origin), Refusal>
    ensures value { PricedAt (λ m. real_time_price m (P.Posting.grid posting.now) book.now) point result }
    ensures facts { RealTimeFactsDecide point (P.Posting.grid posting.now) book.now result }
{
    let market = InMarket {
        book,
        posting,
        market: Market::RealTime,
    };
    point_price(&market, point)
}
