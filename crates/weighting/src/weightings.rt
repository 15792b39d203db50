// The interface of a weighting: what each bus weighs in a case, and the total.
ghost use Rattle.std.specs.Prelude.{◌≡◌};
ghost use Rattle.weighting.specs.Views.{view};
ghost use Rattle.weighting.specs.Meanings.{Meaning, WeightsOf};
ghost use Rattle.weighting.specs.Weights.{Weighs};

use crate::cases::Case;
use crate::weights::Weights;

// Asking changes nothing and is never refused. The meaning carries the laws: a dead bus weighs 0, the total is the sum
// of the weights and at most 2,560,000, and cases that are alike get the same weights.
pub trait Weighting {
    ghost meaning: { Self → Meaning };

    // The weights of all buses of a case, in about one pass over them.
    fn weights(&self, case: &Case) -> [u32; 256]
        ensures { WeightsOf (meaning self.now) (view case.now) result };

    // The weights and their total.
    fn weigh(&self, case: &Case) -> Weights
        ensures { Weighs (meaning self.now) (view case.now) result }
    {
        let weights = self.weights(case);
        let total = weights.iter().sum();
        Weights { weights, total }
    }

    // The total of the weights.
    fn total(&self, case: &Case) -> u32
        ensures { result ≡ (meaning self.now).total (view case.now) }
    {
        self.weigh(case).total
    }
}
