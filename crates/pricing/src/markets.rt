// Prices of any weighting, and of points, in a market.
ghost use Rattle.std.specs.Prelude.{◌≡◌, ℤ, Result};
ghost use Rattle.refusals.specs.declared.Refusal.{Refusal};
ghost use Rattle.weighting.specs.HubLaws.{hub_meaning};
ghost use Rattle.weighting.specs.Meanings.{Meaning};
ghost use Rattle.weighting.specs.declared.hubs.Hub.TheVariants.{Average};
ghost use Rattle.pricing.specs.Markets.{market_price};
ghost use Rattle.pricing.specs.Origins.{hub_price};
ghost use Rattle.pricing.specs.Points.{PricedAt};

use crate::origins::{Origin, from_average, own_price};
use day_ahead::prices::day_ahead_price;
use hour::book::Book;
use hour::records;
use posting::Posting;
use real_time::prices::real_time_price;
use refusals::Refusal;
use weighting::hubs::Hub;
use weighting::points::{Point, SettlementPoint};
use weighting::weightings::Weighting;

// What prices any weighting. The rules for hubs and points ask no more.
pub trait Market {
    ghost price: { Self → Meaning → Result ℤ Refusal };

    // The price of a weighting in cents.
    fn price_of<W: Weighting>(&self, weighting: &W) -> Result<i64, Refusal>
        ensures { result ≡ price self.now (W.Weighting.meaning weighting.now) };
}

// One book and one posting, priced in one market.
#[derive(Drop)]
pub struct InMarket<'a, P> {
    pub book: &'a Book,
    pub posting: &'a P,
    pub market: records::Market,
}

impl<P: Posting> Market for InMarket<'_, P> {
    ghost price = { λ s m. market_price s.market m (P.Posting.grid s.posting.now) s.book.now };

    fn price_of<W: Weighting>(&self, weighting: &W) -> Result<i64, Refusal> {
        match self.market {
            records::Market::DayAhead => day_ahead_price(self.book, weighting, self.posting),
            records::Market::RealTime => real_time_price(self.book, weighting, self.posting),
        }
    }
}

// The price of a hub with its origin: its own, or the average's where the hub has no live weight.
pub fn hub_price<M: Market>(market: &M, hub: Hub) -> Result<(i64, Origin), Refusal>
    ensures { result ≡ hub_price (M.Market.price market.now (hub_meaning hub)) (M.Market.price market.now (hub_meaning Average)) }
{
    // A match, since `or_else` would only hold the same match in its closure.
    match own_price(market.price_of(&hub)) {
        Err(Refusal::NoWeight) => from_average(market.price_of(&Hub::Average)),
        priced => priced,
    }
}

// The price of a hub, load zone or tie that someone names, with its origin. The point is looked at first.
#[tactic(auto, using(weighting::proofs::SettlementPoints::of_none))]
pub fn point_price<M: Market>(market: &M, point: Point) -> Result<(i64, Origin), Refusal>
    ensures { PricedAt (M.Market.price market.now) point result }
{
    match SettlementPoint::try_from(point)? {
        SettlementPoint::Hub(hub) => hub_price(market, hub),
        point => own_price(market.price_of(&point)),
    }
}
