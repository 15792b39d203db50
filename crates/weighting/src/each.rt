// The weights of all buses from the weight of one.
ghost use Rattle.std.specs.Prelude.{ℕ, ◌<◌, slice_index};

use std::array;

// One pass over the buses.
pub fn each<F: Fn(u8) -> u32>(weight: F) -> [u32; 256]
    requires { (bus : ℕ) → bus < 256 → F.pre weight bus }
    ensures { (bus : ℕ) → bus < 256 → F.post weight bus (slice_index result bus) }
{
    // An index below 256 fits: an error to take apart would be no plainer.
    array::from_fn(|bus| weight(bus as u8))
}
