// The book that a saved text writes.
ghost use Rattle.std.specs.Prelude.{◌≡◌, Ok, Err, MatchResult};
ghost use Rattle.faults.specs.Faults.{fault};
ghost use Rattle.cuts.specs.Cuts.{split};
ghost use Rattle.cuts.specs.Fields.{comma};
ghost use Rattle.hour.specs.Hour.{entries};
ghost use Rattle.saved.specs.Laws.{Laws, Resumed};
ghost use Rattle.saved.specs.Lines.{row_of};
ghost use Rattle.saved.specs.Reading.{reading};

use crate::line::Line;
use cuts::pieces::cut;
use faults::{Fault, Spot, Why, in_line};
use hour::book::Book;
use saved_rows::entering::take;
use saved_rows::row::Row;
use saved_rows::stage::Stage;

// The row that a line writes.
fn read_row(line: &[u8]) -> Result<Row, Spot>
    ensures { result ≡ row_of (split comma line.now) }
{
    Line::read(line)?.row()
}

// A fault of a line as a whole.
fn line_fault(why: Why, line: u64) -> Fault
    ensures { result ≡ fault why line 0 }
{
    Fault {
        why,
        line,
        field: 0,
    }
}

// The book that a text writes, or the first fault of the text.
fn read_text(text: &[u8]) -> Result<Book, Fault>
    ensures { MatchResult result (λ b. reading text.now ≡ Ok (entries b)) (λ e. reading text.now ≡ Err e) }
{
    let mut book = Book::fresh();
    let mut stage = Stage::default();
    let mut rest = text;
    let mut line = 1;
    // Not a `for` over the lines: the number of the line behind the last is asked after the loop too, and a line without its end is seen after its form.
    while !rest.is_empty() {
        if stage.is_done() {
            return Err(line_fault(Why::Ending, line));
        }
        let (piece, after) = cut(rest, b'\n');
        let row = in_line(line, read_row(piece))?;
        rest = after.ok_or(line_fault(Why::Form, line))?;
        stage = in_line(line, take(&mut book, stage, line - 1, row))?;
        line += 1;
    }
    if stage.is_done() {
        Ok(book)
    } else {
        Err(line_fault(Why::Ending, line))
    }
}

// Replaces the book whole by the one that the text writes. A text that is refused changes nothing.
#[tactic(auto, using(crate::proofs::Trip::laws))]
pub fn resume(book: &mut Book, text: &[u8]) -> Result<(), Fault>
    ensures hour { Resumed (reading text.now) (entries book.old) (entries book.new) result }
    ensures laws { Laws }
{
    *book = read_text(text)?;
    Ok(())
}
