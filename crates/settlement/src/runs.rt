// A list of deeds, worked one after another on a fresh book.
ghost use Rattle.std.specs.Prelude.{◌≡◌, IfOk, OnOk};
ghost use Rattle.hour.specs.Hour.{entries, fresh};
ghost use Rattle.settlement.specs.Runs.{after_deed, hour_of};
ghost use Rattle.settlement.specs.Prices.{Answers, AnswersAll, Saves, PointPriced, WeightingPriced};
ghost use Rattle.settlement.specs.Promise.{Promise};

use crate::deeds::{Answer, Deed};
use hour::book::Book;
use hour::records::Market;
use posting::Posting;
use pricing::markets::{InMarket, Market as _, point_price};
use pricing::origins::{Origin, own_price};
use refusals::Refusal;
use saved::reading::resume;
use saving::save;
use std::alloc::{AllocError, Global};
use weighting::points::Point;
use weighting::weightings::Weighting;

// The book after a run, and what each deed answered.
#[derive(Drop)]
pub struct Run {
    pub book: Book,
    pub answers: Vec<Answer>,
}

// Works deeds on a fresh book, one after another. Questions for prices are asked over the posting; the weighting is the one of
// questions for a weighting by itself. Memory may fail for the answers only.
pub fn settle<W: Weighting, P: Posting>(
    heap: Global,
    deeds: &[Deed],
    weighting: &W,
    posting: &P,
) -> Result<Run, AllocError>
    ensures book { IfOk result (λ done. entries done.book ≡ hour_of deeds.now) }
    ensures answers { IfOk result (λ done. AnswersAll (W.Weighting.meaning weighting.now) (P.Posting.grid posting.now) fresh deeds.now done.answers.items) }
    ensures promise { OnOk result (Promise deeds.now) }
{
    let desk = Desk {
        heap,
        weighting,
        posting,
    };
    let mut book = Book::fresh();
    let mut answers = Vec::new(heap);
    for deed in deeds {
        answers.push(desk.work(&mut book, deed)?)?;
    }
    Ok(Run { book, answers })
}

// What the deeds of a run are worked with.
#[derive(Drop)]
struct Desk<'a, W, P> {
    heap: Global,
    weighting: &'a W,
    posting: &'a P,
}

impl<W: Weighting, P: Posting> Desk<'_, W, P> {
    // Works one deed.
    fn work(&self, book: &mut Book, deed: &Deed) -> Result<Answer, AllocError>
        ensures hour { OnOk result (entries book.new ≡ after_deed (entries book.old) deed.now) }
        ensures answer { IfOk result (λ a. Answers (W.Weighting.meaning self.now.weighting.now) (P.Posting.grid self.now.posting.now) (entries book.old) deed.now a) }
    {
        match *deed {
            Deed::Call(call) => Ok(Answer::Called(book.apply(&call))),
            Deed::Save(room) => self.save(book, room),
            Deed::Resume(text) => Ok(Answer::Resumed(resume(book, text))),
            Deed::Price(market, point) => Ok(Answer::Priced(self.price_point(book, market, point))),
            Deed::PriceWeighting(market) => Ok(Answer::Priced(self.price_weighting(book, market))),
        }
    }

    // The saved text, where it has room.
    fn save(&self, book: &Book, room: usize) -> Result<Answer, AllocError>
        ensures { IfOk result (λ a. Saves room (entries book.now) a) }
    {
        let mut buffer = vec![in self.heap; 0u8; room]?;
        let saved = save(book, buffer.as_mut_slice()).map(|length| {
            buffer.truncate(length);
            buffer
        });
        Ok(Answer::Saved(saved))
    }

    // The price of a point in a market.
    fn price_point(
        &self,
        book: &Book,
        market: Market,
        point: Point,
    ) -> Result<(i64, Origin), Refusal>
        ensures { PointPriced market point (P.Posting.grid self.now.posting.now) book.now result }
    {
        let market = InMarket {
            book,
            posting: self.posting,
            market,
        };
        point_price(&market, point)
    }

    // The price of the weighting by itself in a market.
    fn price_weighting(&self, book: &Book, market: Market) -> Result<(i64, Origin), Refusal>
        ensures { WeightingPriced market (W.Weighting.meaning self.now.weighting.now) (P.Posting.grid self.now.posting.now) book.now result }
    {
        let market = InMarket {
            book,
            posting: self.posting,
            market,
        };
        own_price(market.price_of(self.weighting))
    }
}
