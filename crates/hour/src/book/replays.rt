// A fresh book, one call carried out on a book, and a list of calls replayed on a fresh one.
ghost use Rattle.std.specs.Prelude.{◌≡◌, IfOk};
ghost use Rattle.hour.specs.Hour.{entries, fresh};
ghost use Rattle.hour.specs.Steps.{Did};
ghost use Rattle.hour.specs.Replays.{step, worked, answers};
ghost use Rattle.hour.specs.Laws.{Laws};

use crate::book::Book;
use crate::calls::Call;
use crate::records::Bus;
use refusals::Refusal;
use std::alloc::{AllocError, Global};

// A book after a list of calls, and what each of them answered.
#[derive(Drop)]
pub struct Replayed {
    pub book: Book,
    pub answers: Vec<Result<(), Refusal>>,
}

impl Book {
    // A book with no lambda, no posted constraint and no run, whose bus fields are all 0.
    pub fn fresh() -> Self
        ensures { entries result ≡ fresh }
    {
        Book {
            buses: [Bus::default(); 256],
            lambda: None,
            constraints: [None; 32],
            runs: [None; 16],
        }
    }

    // Carries out one call.
    pub fn apply(&mut self, call: &Call) -> Result<(), Refusal>
        ensures { Did (step (entries self.old) call.now) (entries self.old) (entries self.new) result }
    {
        match *call {
            Call::Place { bus, hub_bus, zone } => self.place(bus, hub_bus, zone),
            Call::Status { bus, market, live } => self.set_status(bus, market, live),
            Call::Load { bus, market, load } => self.set_load(bus, market, load),
            Call::Lambda { lambda } => self.set_lambda(lambda),
            Call::Post {
                constraint,
                shadow_price,
            } => self.post(constraint, shadow_price),
            Call::Strike { constraint } => self.strike(constraint),
            Call::Outage {
                constraint,
                bus,
                out,
            } => self.set_outage(constraint, bus, out),
            Call::EnterRun {
                run,
                seconds,
                reserve_adder,
                reliability_adder,
            } => self.enter_run(run, seconds, reserve_adder, reliability_adder),
            Call::DropRun { run } => self.drop_run(run),
        }
    }
}

// Replays a list of calls, one after the other, on a fresh book. Memory may fail for the answers only.
pub fn replay(heap: Global, calls: &[Call]) -> Result<Replayed, AllocError>
    ensures book { IfOk result (λ p. entries p.book ≡ worked fresh calls.now) }
    ensures answers { IfOk result (λ p. p.answers.items ≡ answers fresh calls.now) }
    ensures laws { Laws }
{
    let mut book = Book::fresh();
    let mut answers = Vec::new(heap);
    for call in calls {
        answers.push(book.apply(call))?;
    }
    Ok(Replayed { book, answers })
}
