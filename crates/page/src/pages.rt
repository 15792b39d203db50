// A page: at most N bytes of text, held in place.
ghost use Rattle.std.specs.Prelude.{◌≤◌, length};

use arrayvec::ArrayVec;

mod copying;
mod writing;

// What a page has no room for is left out, so nothing that is written to it is refused.
#[derive(Drop)]
pub struct Page<const N: usize> {
    text: ArrayVec<u8, N>,
    ghost within: { length text.items ≤ N },
}
