// A page's text, written to a caller's buffer.
ghost use Rattle.page.specs.Copies.{Copies};
ghost use Rattle.page.specs.Pages.{written};

use crate::pages::Page;
use refusals::Refusal;

impl<const N: usize> Page<N> {
    // Writes the text to the front of `out`, and answers its length. A buffer that is too short is left as it was.
    pub fn copy_to(&self, out: &mut [u8]) -> Result<usize, Refusal>
        ensures { Copies (written self.now) out.old out.new result }
    {
        let (front, _) = out
            .split_at_mut_checked(self.len())
            .ok_or(Refusal::BufferShort)?;
        front.copy_from_slice(&self.text);
        Ok(self.len())
    }
}
