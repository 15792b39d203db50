// What the posted constraints contribute to a price, in fine units of a millionth of a cent.
//
// The sum of weight times factor is up to 5,120,000,000,000. Times a shadow price it is up to 5,120,000,000,000,000,000, and 32 of that
// pass 64 bits: contributions have 128.
ghost use Rattle.std.specs.Prelude.{◌≡◌, pos, IfSome, MatchOption};
ghost use Rattle.posting.specs.Grids.{Within};
ghost use Rattle.weighted_sums.specs.Sums.{sum_z};
ghost use Rattle.day_ahead.specs.Bounds.{most_contribution, most_contributions};
ghost use Rattle.day_ahead.specs.Prices.{contribution, in_cents, day_ahead_price};

use hour::book::Book;
use hour::records::Market;
use numbers::half_up;
use posting::Posting;
use refusals::Refusal;
use weighted_sums::weighted_sum;
use weighting::cases::Case;
use weighting::weightings::Weighting;

// A million to the cent.
const FINE_UNITS: u32 = 1_000_000;

// A weighting to be priced in a book's hour, with the posting's numbers as factors.
#[derive(Clone, Copy)]
pub struct Pricing<'a, W, P> {
    pub book: &'a Book,
    pub weighting: &'a W,
    pub posting: &'a P,
}

impl<W: Weighting, P: Posting> Pricing<'_, W, P> {
    // The price in cents. Lambda is looked at first, then the weight of the base case.
    pub fn price(&self) -> Result<i64, Refusal>
        ensures { result ≡ day_ahead_price (W.Weighting.meaning self.now.weighting.now) (P.Posting.grid self.now.posting.now) self.now.book.now }
    {
        let lambda = self.book.lambda().ok_or(Refusal::NoLambda)?;
        let base = Case::base(self.book, Market::DayAhead);
        if self.weighting.total(&base) == 0 {
            return Err(Refusal::NoWeight);
        }
        Ok(cents(lambda, self.contributions()))
    }

    // The sum of what the constraints contribute.
    fn contributions(&self) -> i128
        ensures value { result ≡ sum_z (contribution (W.Weighting.meaning self.now.weighting.now) (P.Posting.grid self.now.posting.now) self.now.book.now) 32 }
        ensures bound { Within most_contributions result }
    {
        let mut sum = 0;
        // Tried as a chain: that each step of a signed `sum` fits did not close. The loop has it from the number of steps.
        for k in 0..32 {
            sum += self.contribution(k).unwrap_or(0);
        }
        sum
    }

    // What constraint k contributes: its average factor times the shadow price. None where it is not posted or no bus has weight.
    fn contribution(&self, k: u8) -> Option<i128>
        ensures value { MatchOption result (pos 0 ≡ contribution (W.Weighting.meaning self.now.weighting.now) (P.Posting.grid self.now.posting.now) self.now.book.now k) (λ c. c ≡ contribution (W.Weighting.meaning self.now.weighting.now) (P.Posting.grid self.now.posting.now) self.now.book.now k) }
        ensures bound { IfSome result (Within most_contribution) }
    {
        let constraint = self.book.constraint(k)?;
        let case = Case::under(self.book, k)?;
        let weights = self.weighting.weigh(&case);
        // Without weight the posting is not asked: a question may read a whole text.
        if weights.total == 0 {
            return None;
        }
        let sum = weighted_sum(&weights, self.posting, usize::from(k));
        let product = i128::from(sum) * i128::from(constraint.shadow_price);
        half_up(product, weights.total)
    }
}

// Lambda less the contributions, in cents.
fn cents(lambda: i64, contributions: i128) -> i64
    requires { Within most_contributions contributions }
    ensures { result ≡ in_cents lambda contributions }
{
    // No cast by `try_from`: that the cents fit 64 bits is proved here, and a refusal would have no name.
    half_up(i128::from(lambda) - contributions, FINE_UNITS).unwrap() as i64
}
