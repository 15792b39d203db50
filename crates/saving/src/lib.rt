// Saving an hour: its saved text, written to a caller's buffer.
#![tactic(auto)]

ghost use Rattle.hour.specs.Hour.{entries};
ghost use Rattle.page.specs.Copies.{Copies};
ghost use Rattle.saving.specs.Laws.{Fits, Legible};
ghost use Rattle.saved.specs.Texts.{saved_text};

use crate::drafts::Draft;
use hour::book::Book;
use refusals::Refusal;

mod drafts;

// As many bytes as are enough for any saved text.
pub const LONGEST: usize = 90_000;

// Writes the book's saved text to the front of `out`, and answers its length. A buffer that is too short is left as it was.
#[tactic(auto, using(crate::proofs::Lengths::saved_fits, crate::proofs::Reading::saved_legible))]
pub fn save(book: &Book, out: &mut [u8]) -> Result<usize, Refusal>
    ensures saved { Copies (saved_text (entries book.now)) out.old out.new result }
    ensures fits { Fits (entries book.now) }
    ensures legible { Legible (entries book.now) }
{
    // The draft is filled where it stands: each hand that it went through would copy its 90,000 bytes.
    let mut draft = Draft::empty();
    draft.push_book(book);
    draft.page.copy_to(out)
}
