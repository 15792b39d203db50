// A posting text checked from its first line to its last.
ghost use Rattle.std.specs.Prelude.{◌≡◌, List, length, Ok, MatchResult};
ghost use Rattle.std.specs.List.{AllByRecursion};
ghost use Rattle.posting_text.specs.Texts.{checking};
ghost use Rattle.posting_text.specs.Written.{Right, text_of};
ghost use Rattle.posting_text.specs.Laws.{InOrder, FirstFault};

use crate::entries::Entry;
use crate::texts::past_line;
use faults::{Fault, in_line};

// The number of lines of a text, all of them right, or its first fault. A text with no line is in order.
pub fn check(text: &[u8]) -> Result<u64, Fault>
    ensures value { result ≡ checking text.now }
    ensures says { MatchResult result (InOrder text.now) (FirstFault text.now) }
    ensures accepts { (es : List Entry) → AllByRecursion Right es → text.now ≡ text_of es → result ≡ Ok (length es) }
{
    // Not over the complete lines, as what follows the last line end is faulted too, nor over the pieces of `split_inclusive`, as
    // `past_line` cuts its line off by itself.
    let mut rest = text;
    let mut count = 0;
    while !rest.is_empty() {
        rest = in_line(count + 1, past_line(rest))?;
        count += 1;
    }
    Ok(count)
}
