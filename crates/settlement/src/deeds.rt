// What is done in a run, and what it answers.
use faults::Fault;
use hour::calls::Call;
use hour::records::Market;
use pricing::origins::Origin;
use refusals::Refusal;
use weighting::points::Point;

#[derive(Clone, Copy, PartialEq, Eq, Debug)]
pub enum Deed<'a> {
    // A call on the book.
    Call(Call),
    // A save into a buffer of so many bytes.
    Save(usize),
    // A resume of a text.
    Resume(&'a [u8]),
    // A question for the price of a hub, load zone or tie.
    Price(Market, Point),
    // A question for the price of the run's own weighting.
    PriceWeighting(Market),
}

#[derive(Drop)]
pub enum Answer {
    Called(Result<(), Refusal>),
    // The saved text.
    Saved(Result<Vec<u8>, Refusal>),
    Resumed(Result<(), Fault>),
    // Cents and origin.
    Priced(Result<(i64, Origin), Refusal>),
}
