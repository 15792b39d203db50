// A posting line by its fields, which are parts of the text.
ghost use Rattle.std.specs.Prelude.{◌≡◌, IfOk};
ghost use Rattle.cuts.specs.Cuts.{split};
ghost use Rattle.cuts.specs.Fields.{comma, left, ReadAs, ReadLine};
ghost use Rattle.posting_text.specs.Lines.{letter, after_letter, numbers_of, line_numbers, line_entry};
ghost use Rattle.posting_text.specs.Pieces.{pieces};
ghost use Rattle.posting_text.specs.Written.{Right};

use crate::entries::{Entry, Numbers};
use cuts::fields::{Fields, malformed, read_letter};
use decimals::read_decimal;
use faults::{Spot, at};

// The fields behind the letter F.
#[derive(Clone, Copy, PartialEq, Eq, Debug)]
pub struct PostingLine<'a> {
    bus: &'a [u8],
    column: &'a [u8],
    value: &'a [u8],
}

// The line that has these fields behind its letter.
fn after_letter<'a>(mut fields: Fields<'a>) -> Result<PostingLine<'a>, Spot>
    ensures { ReadAs pieces letter after_letter (left fields.entry) result }
{
    let bus = fields.number(2)?;
    let column = fields.number(3)?;
    let value = fields.number(4)?;
    fields.end(5)?;
    Ok(PostingLine { bus, column, value })
}

impl<'a> PostingLine<'a> {
    // The line that bytes write, or the first of its fields that is wrong, missing or one too many.
    pub fn read(line: &'a [u8]) -> Result<PostingLine<'a>, Spot>
        ensures { ReadLine pieces numbers_of (split comma line.now) result }
    {
        let (first, fields) = Fields::of(line);
        match read_letter(first) {
            Some('F') => after_letter(fields),
            _ => Err(malformed(1)),
        }
    }

    // The numbers in its fields.
    pub fn numbers(&self) -> Result<Numbers, Spot>
        ensures { result ≡ numbers_of (pieces self.now) }
    {
        let bus = at(2, read_decimal(self.bus))?;
        let column = at(3, read_decimal(self.column))?;
        let value = at(4, read_decimal(self.value))?;
        Ok(Numbers { bus, column, value })
    }
}

// The numbers in the fields of a line, or the first field of wrong form.
#[tactic(auto, unfolding(crate::specs::Lines::line_numbers))]
pub fn read_numbers(line: &[u8]) -> Result<Numbers, Spot>
    ensures { result ≡ line_numbers line.now }
{
    PostingLine::read(line)?.numbers()
}

// The entry that a line posts, or its first fault: of the form of its fields, and then of their values.
pub fn read_entry(line: &[u8]) -> Result<Entry, Spot>
    ensures value { result ≡ line_entry line.now }
    ensures right { IfOk result (λ e. Right e) }
{
    read_numbers(line)?.entry()
}
