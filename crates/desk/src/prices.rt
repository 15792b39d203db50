// What a point costs, with the numbers of a desk's table.
ghost use Rattle.posting.specs.Meanings.{table_grid};
ghost use Rattle.pricing.specs.Markets.{market_price};
ghost use Rattle.pricing.specs.Points.{PricedAt};

use hour::book::Book;
use hour::records::Market;
use posting::table::Table;
use pricing::markets::{InMarket, point_price};
use pricing::origins::Origin;
use refusals::Refusal;
use weighting::points::Point;

// The price of a point in a market. Day-ahead the table's numbers are shift factors, in real time they are the prices of runs.
pub fn price_at(
    book: &Book,
    factors: &[i32],
    market: Market,
    point: Point,
) -> Result<(i64, Origin), Refusal>
    ensures { PricedAt (λ m. market_price market m (table_grid factors.now) book.now) point result }
{
    let table = Table::over(factors);
    let market = InMarket {
        book,
        posting: &table,
        market,
    };
    point_price(&market, point)
}
