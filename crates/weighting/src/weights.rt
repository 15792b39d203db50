// What all buses weigh, and the total.
ghost use Rattle.std.specs.Prelude.{◌≡◌, ◌≤◌, slice_index};
ghost use Rattle.weighting.specs.Sums.{sum_below};
ghost use Rattle.weighting.specs.Meanings.{most_total};

// The weights of all buses in a case, and their total.
#[derive(Clone, Copy, PartialEq, Eq, Debug)]
pub struct Weights {
    pub weights: [u32; 256],
    pub total: u32,
    ghost sum: { total ≡ sum_below (λ b. slice_index weights b) 256 },
    ghost most: { total ≤ most_total },
}
