// Weights under a posted constraint.
ghost use Rattle.std.specs.Prelude.{◌≡◌, ℕ, ◌<◌, None, MatchOption, slice_index};
ghost use Rattle.hour.specs.Hour.{entries, constraint_at};
ghost use Rattle.weighting.specs.Marks.{weight_under, MarkLaws};

use crate::cases::Case;
use crate::weightings::Weighting;
use hour::book::Book;

// The weights of a posted constraint's case; none where it is not posted.
#[tactic(auto, using(crate::proofs::Marks::mark_laws))]
pub fn weights_under<W: Weighting>(weighting: &W, book: &Book, constraint: u8) -> Option<[u32; 256]>
    ensures weights { MatchOption result (constraint_at (entries book.now) constraint ≡ None) (λ all. (b : ℕ) → b < 256 → slice_index all b ≡ weight_under (W.Weighting.meaning weighting.now) book.now constraint b) }
    ensures laws { MarkLaws (W.Weighting.meaning weighting.now) }
{
    let case = Case::under(book, constraint)?;
    Some(weighting.weights(&case))
}
