// The day-ahead prices of an hour as lines of text, one for each hub and for each load zone that has a bus.
#![tactic(auto)]

ghost use Rattle.std.specs.Prelude.{◌≡◌, take, IfOk};
ghost use Rattle.hour.specs.Hour.{entries};
ghost use Rattle.page.specs.Copies.{Copies};
ghost use Rattle.page.specs.Pages.{written};
ghost use Rattle.price_lines.specs.Lines.{day_ahead, price_lines};
ghost use Rattle.price_lines.specs.Shown.{Shows};

use crate::lines::Lines;
use hour::book::Book;
use hour::records::Market;
use posting::Posting;
use pricing::markets::InMarket;
use refusals::Refusal;

mod fields;
mod lines;
mod points;

// Room for 22 lines of 48 bytes.
const PAGE: usize = 1056;

// Writes the lines to the front of `out`, and answers how many bytes they are. A buffer that is too short is left as it was.
pub fn price_lines<P: Posting>(book: &Book, posting: &P, out: &mut [u8]) -> Result<usize, Refusal>
    ensures text { Copies (price_lines book.now (P.Posting.grid posting.now)) out.old out.new result }
    ensures shown { IfOk result (λ n. Shows (day_ahead book.now (P.Posting.grid posting.now)) (entries book.now) (take n out.new)) }
{
    composed(book, posting).page.copy_to(out)
}

fn composed<'a, P: Posting>(book: &'a Book, posting: &'a P) -> Lines<PAGE>
    ensures { written result.page ≡ price_lines book.now (P.Posting.grid posting.now) }
{
    let market = InMarket {
        book,
        posting,
        market: Market::DayAhead,
    };
    let mut lines: Lines<PAGE> = Lines::none();
    lines.push_hubs(&market);
    lines.push_zones(book, &market);
    lines
}
