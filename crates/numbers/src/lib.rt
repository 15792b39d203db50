// Division of whole numbers to a whole number, with halves toward the higher one.
#![tactic(auto)]

ghost use Rattle.std.specs.Prelude.{◌≡◌, ℤ, MatchOption};
ghost use Rattle.numbers.specs.Rounding.{half_up, Nearest, HalvesRise};

// The whole number nearest to n / d, the higher of two that are equally near; none where d is 0.
#[tactic(auto, using(crate::proofs::Halves::halves_rise))]
pub fn half_up(n: i128, d: u32) -> Option<i128>
    ensures value { MatchOption result (d ≡ 0) (λ q. q ≡ half_up n d) }
    ensures nearest { MatchOption result (d ≡ 0) (λ q. Nearest n d q) }
    ensures fixed { HalvesRise }
{
    let by = i128::from(d);
    let floor = n.checked_div_euclid(by)?;
    let rest = n.rem_euclid(by);
    Some(if 2 * rest >= by { floor + 1 } else { floor })
}
