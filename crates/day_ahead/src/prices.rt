// The day-ahead price in cents, or why there is none.
ghost use Rattle.std.specs.Prelude.{◌≡◌};
ghost use Rattle.day_ahead.specs.Prices.{day_ahead_price};
ghost use Rattle.day_ahead.specs.Facts.{LiveFactsDecide};
ghost use Rattle.day_ahead.specs.Exact.{NearExact};
ghost use Rattle.day_ahead.specs.Moves.{ReferenceStays, PostedReferenceStays};

use crate::contributions::Pricing;
use hour::book::Book;
use posting::Posting;
use refusals::Refusal;
use weighting::weightings::Weighting;

// The price of a weighting, with the posting's numbers as factors. Lambda is looked at first, then the weight of the base case.
pub fn day_ahead_price<W: Weighting, P: Posting>(
    book: &Book,
    weighting: &W,
    posting: &P,
) -> Result<i64, Refusal>
    ensures value { result ≡ day_ahead_price (W.Weighting.meaning weighting.now) (P.Posting.grid posting.now) book.now }
    ensures facts { LiveFactsDecide (W.Weighting.meaning weighting.now) (P.Posting.grid posting.now) book.now result }
    ensures near { NearExact (W.Weighting.meaning weighting.now) (P.Posting.grid posting.now) book.now result }
    ensures reference { ReferenceStays (W.Weighting.meaning weighting.now) (P.Posting.grid posting.now) book.now result }
    ensures posted_reference { PostedReferenceStays (W.Weighting.meaning weighting.now) (P.Posting.grid posting.now) book.now result }
{
    let pricing = Pricing {
        book,
        weighting,
        posting,
    };
    pricing.price()
}
