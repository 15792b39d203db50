// Numbers held to their limits. Arguments are wide, so that any number a caller has is granted or refused.
#![tactic(auto)]

ghost use Rattle.std.specs.Prelude.{◌≡◌, true, false, MatchResult};
ghost use Rattle.bounds.specs.Bounds.{UpTo, within};

use refusals::Refusal;

// The value as a number from 0 to `last`, or the refusal.
pub fn up_to(value: i64, last: u16, refusal: Refusal) -> Result<u16, Refusal>
    ensures { UpTo value last refusal result }
{
    u16::try_from(value)
        .ok()
        .filter(|n| *n <= last)
        .ok_or(refusal)
}

// Whether the value is at most `most` away from 0.
pub fn is_within(value: i64, most: u64) -> bool
    ensures { result ≡ within value most }
{
    value.unsigned_abs() <= most
}

// The value is at most `most` away from 0, or the refusal.
pub fn within(value: i64, most: u64, refusal: Refusal) -> Result<(), Refusal>
    ensures { MatchResult result (λ _. within value most ≡ true) (λ e. (within value most ≡ false) × (e ≡ refusal)) }
{
    is_within(value, most).then_some(()).ok_or(refusal)
}
