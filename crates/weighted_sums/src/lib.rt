// Sums over the buses of weight times posted number, for the prices of both markets.
#![tactic(auto)]

ghost use Rattle.std.specs.Prelude.{◌≡◌};
ghost use Rattle.posting.specs.Grids.{Within};
ghost use Rattle.weighted_sums.specs.Weighted.{weight_in, weighted_sum, most_weighted};

use posting::Posting;
use weighting::weights::Weights;

// The sum over the buses of weight times the number posted in a column. At most 2,560,000 times 2,000,000, so 64 bits do.
pub fn weighted_sum<P: Posting>(weights: &Weights, posting: &P, column: usize) -> i64
    ensures value { result ≡ weighted_sum (weight_in weights.now) (P.Posting.grid posting.now) column }
    ensures bound { Within most_weighted result }
{
    let mut sum = 0;
    // Tried as a chain: that each step of a signed `sum` fits did not close. The loop has it from the total.
    for (bus, weight) in weights.weights.iter().enumerate() {
        sum += i64::from(*weight) * i64::from(posting.number(bus, column));
    }
    sum
}
