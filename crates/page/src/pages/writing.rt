// What is written to a page follows what stands on it.
ghost use Rattle.std.specs.Prelude.{◌≡◌, [], ◌∷◌, length};
ghost use Rattle.std.specs.Fmt.{signed_decimal};
ghost use Rattle.page.specs.Pages.{written, Follows};

use crate::pages::Page;
use arrayvec::ArrayVec;
use itoa::Buffer;

impl<const N: usize> Page<N> {
    // A page with nothing on it.
    pub fn blank() -> Page<N>
        ensures { written result ≡ [] }
    {
        Page {
            text: ArrayVec::new(),
        }
    }

    // How many bytes stand on the page.
    pub fn len(&self) -> usize
        ensures { result ≡ length (written self.now) }
    {
        self.text.len()
    }

    // One byte more.
    pub fn push(&mut self, b: u8)
        ensures { Follows (b ∷ []) self.old self.new }
    {
        self.push_all(&[b]);
    }

    // A text more.
    pub fn push_all(&mut self, bytes: &[u8])
        ensures { Follows bytes.now self.old self.new }
    {
        let fits = bytes.len().min(self.text.remaining_capacity());
        let _ = self.text.try_extend_from_slice(&bytes[..fits]);
    }

    // A number more, with a minus before a negative one.
    pub fn push_number(&mut self, z: i64)
        ensures { Follows (signed_decimal z) self.old self.new }
    {
        self.push_all(Buffer::new().format(z).as_bytes());
    }
}
