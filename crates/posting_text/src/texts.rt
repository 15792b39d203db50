// The lines of a posting text, one after the other.
ghost use Rattle.std.specs.Prelude.{◌≡◌, Ok, Err, MatchResult};
ghost use Rattle.std.specs.Iterator.{YieldsFirstRef, item_count};
ghost use Rattle.posting_text.specs.Texts.{lines, past_line};

use crate::lines::read_numbers;
use cuts::fields::malformed;
use cuts::pieces::cut;
use faults::Spot;

// The complete lines of a text, in order; what follows the last line end is none.
// The library's `split` has its closure's type wherever it is named, and tells its pieces by runs.
#[derive(Drop)]
pub struct Lines<'a> {
    rest: &'a [u8],
}

impl<'a> Lines<'a> {
    // All lines of a text.
    pub fn of(text: &'a [u8]) -> Lines<'a>
        ensures { lines result.rest.now ≡ lines text.now }
    {
        Lines { rest: text }
    }
}

impl<'a> Iterator for Lines<'a> {
    type Item = &'a [u8];

    ghost next_gives = { YieldsFirstRef (λ l. lines l.rest.now) };

    ghost remaining = { item_count (λ l. lines l.rest.now) };

    fn next(&mut self) -> Option<&'a [u8]> {
        let (line, rest) = cut(self.rest, b'\n');
        self.rest = rest?;
        Some(line)
    }
}

// What stands behind the first line, which has to be right in its form, its end and its values.
pub fn past_line(text: &[u8]) -> Result<&[u8], Spot>
    ensures { MatchResult result (λ t. past_line text.now ≡ Ok t.now) (λ e. past_line text.now ≡ Err e) }
{
    let (line, after) = cut(text, b'\n');
    let numbers = read_numbers(line)?;
    let rest = after.ok_or(malformed(0))?;
    numbers.entry()?;
    Ok(rest)
}
