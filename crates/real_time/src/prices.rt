// The real-time price: the weighted price sum of each entered run, with its adders, times its seconds, over the interval's seconds and
// the total weight.
ghost use Rattle.std.specs.Prelude.{◌≡◌, ◌<◌, ◌≤◌, true, pos, ◌+ℤ◌, ◌*ℤ◌, MatchOption};
ghost use Rattle.posting.specs.Grids.{Within};
ghost use Rattle.hour.specs.Hour.{entries, run_at};
ghost use Rattle.hour.specs.Sound.{when_some, run_sound};
ghost use Rattle.weighting.specs.Meanings.{most_total};
ghost use Rattle.weighted_sums.specs.Weighted.{weight_in, most_weighted};
ghost use Rattle.real_time.specs.Bounds.{most_part, most_sum};
ghost use Rattle.real_time.specs.Prices.{run_part, hour_sum, cents_of, real_time_price};
ghost use Rattle.real_time.specs.Laws.{NearestCent, SameFactsSamePrice};

use hour::book::Book;
use hour::limits::MOST_SECONDS;
use hour::records::{Market, Run};
use numbers::half_up;
use posting::Posting;
use refusals::Refusal;
use weighted_sums::weighted_sum;
use weighting::cases::Case;
use weighting::weightings::Weighting;
use weighting::weights::Weights;

// The seconds of the interval, which the entered runs must fill: the most that they can have together.
const INTERVAL: u16 = MOST_SECONDS;

// No price is below this many cents.
const FLOOR: i64 = -25_100;

// What a run adds to the hour sum, from its weighted price sum and the total weight.
fn weighed_run(prices: i64, total: u32, run: Run) -> i128
    requires prices { Within most_weighted prices }
    requires total { total ≤ most_total }
    requires run { run_sound run ≡ true }
    ensures value { result ≡ (prices +ℤ (pos total *ℤ (run.reserve_adder +ℤ run.reliability_adder))) *ℤ pos run.seconds }
    ensures bound { Within most_part result }
{
    let adders = i128::from(run.reserve_adder + run.reliability_adder);
    (i128::from(prices) + i128::from(total) * adders) * i128::from(run.seconds)
}

// Weights to be priced in a book's hour, with the posting's numbers as the prices of its runs.
#[derive(Clone, Copy)]
struct Pricing<'a, P> {
    book: &'a Book,
    weights: &'a Weights,
    posting: &'a P,
}

impl<P: Posting> Pricing<'_, P> {
    // The parts of all runs.
    fn hour_sum(&self) -> i128
        ensures value { result ≡ hour_sum (weight_in self.now.weights.now) (P.Posting.grid self.now.posting.now) self.now.weights.now.total (run_at (entries self.now.book.now)) }
        ensures bound { Within most_sum result }
    {
        let runs = self.book.runs().as_slice();
        let mut sum = 0;
        // Tried as a chain: that each step of a signed `sum` fits did not close. The loop has it from the number of runs.
        for (column, run) in runs.iter().enumerate() {
            sum += self.run_part(column, *run);
        }
        sum
    }

    // The part of the run in a column; 0 where it is not entered.
    fn run_part(&self, column: usize, run: Option<Run>) -> i128
        requires { when_some run_sound run ≡ true }
        ensures value { result ≡ run_part (weight_in self.now.weights.now) (P.Posting.grid self.now.posting.now) self.now.weights.now.total column run }
        ensures bound { Within most_part result }
    {
        run.map_or(
            0,
            |run: Run|
                requires { run_sound run ≡ true }
            {
                weighed_run(
                    weighted_sum(self.weights, self.posting, column),
                    self.weights.total,
                    run,
                )
            },
        )
    }
}

// The hour sum over the interval's seconds and the total weight, in cents; none without weight.
fn cents(sum: i128, total: u32) -> Option<i64>
    requires sum { Within most_sum sum }
    requires total { total ≤ most_total }
    ensures { MatchOption result (total ≡ 0) (λ p. (0 < total) × (p ≡ cents_of sum total)) }
{
    let nearest = half_up(sum, u32::from(INTERVAL) * total)?;
    // No cast by `try_from`: that the nearest cent fits 64 bits is proved here, and a refusal would have no name.
    Some((nearest as i64).max(FLOOR))
}

// The real-time price in cents.
pub fn real_time_price<W: Weighting, P: Posting>(
    book: &Book,
    weighting: &W,
    posting: &P,
) -> Result<i64, Refusal>
    ensures value { result ≡ real_time_price (W.Weighting.meaning weighting.now) (P.Posting.grid posting.now) book.now }
    ensures nearest { NearestCent (W.Weighting.meaning weighting.now) (P.Posting.grid posting.now) book.now result }
    ensures facts { SameFactsSamePrice (W.Weighting.meaning weighting.now) (P.Posting.grid posting.now) book.now result }
{
    if book.total_seconds() != INTERVAL {
        return Err(Refusal::SecondsShort);
    }
    let weights = weighting.weigh(&Case::base(book, Market::RealTime));
    let pricing = Pricing {
        book,
        weights: &weights,
        posting,
    };
    cents(pricing.hour_sum(), weights.total).ok_or(Refusal::NoWeight)
}
