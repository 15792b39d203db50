// Prices as a dispatcher reads them.
ghost use Rattle.std.specs.Prelude.{◌≡◌, IfOk, Some, string_bytes};
ghost use Rattle.desk.specs.PriceLaws.{Tells};
ghost use Rattle.desk.specs.PriceTexts.{dollars, origin_words, price_text};

use pricing::origins::Origin;
use std::alloc::{AllocError, Global};
use std::fmt;

// A price in dollars and cents, and its origin.
#[derive(Clone, Copy, PartialEq, Eq, Debug)]
pub struct PriceText {
    pub cents: i64,
    pub origin: Origin,
}

impl PriceText {
    // No two prices are written alike.
    #[tactic(auto, using(crate::proofs::Amounts::tells))]
    pub fn of(cents: i64, origin: Origin) -> PriceText
        ensures made { result ≡ record { cents = cents; origin = origin } }
        ensures tells { Tells cents }
    {
        PriceText { cents, origin }
    }
}

impl fmt::Display for PriceText {
    ghost output = { λ price. Some (price_text price.cents price.origin) };

    fn fmt<W: fmt::Write>(&self, f: &mut fmt::Formatter<W>) -> fmt::Result {
        let sign = if self.cents < 0 { "-" } else { "" };
        let dollars = Dollars(self.cents.unsigned_abs());
        let origin = origin_words(self.origin);
        write!(f, "{sign}{dollars}, {origin}")
    }
}

// A price in words as a string. No two prices are written alike.
#[tactic(auto, using(crate::proofs::Amounts::tells))]
pub fn price_text(heap: Global, cents: i64, origin: Origin) -> Result<String, AllocError>
    ensures value { IfOk result (λ s. string_bytes s ≡ price_text cents origin) }
    ensures tells { Tells cents }
{
    let text = PriceText::of(cents, origin);
    format!(in heap; "{text}")
}

// Cents as dollars, with two digits of cents.
#[derive(Drop)]
struct Dollars(u64);

impl fmt::Display for Dollars {
    ghost output = { λ cents. Some (dollars cents.0) };

    #[tactic(auto, using(crate::proofs::Cents::two_digits))]
    fn fmt<W: fmt::Write>(&self, f: &mut fmt::Formatter<W>) -> fmt::Result {
        write!(f, "${}.{:02}", self.0 / 100, self.0 % 100)
    }
}

// Where a price comes from.
fn origin_words(origin: Origin) -> &'static str
    ensures { result.now ≡ origin_words origin }
{
    match origin {
        Origin::Own => "own weighting",
        Origin::Average => "ERCOT average",
        Origin::Nothing => "no live weight",
    }
}

#[cfg(test)]
mod tests {
    use super::*;
    use crate::replies::Reply;
    use hour::calls::Call;
    use refusals::Refusal;
    use script::writing::write;
    use std::test::Fail;

    // A price below 0 keeps its sign, and its cents have two digits.
    #[test]
    fn price_in_words(rt: HostRuntime) -> Result<(), Fail> {
        let price = PriceText::of(-25_105, Origin::Own);
        let text = format!(in rt.alloc(); "{price}")?;
        assert_eq!(rt; text.as_str(), "-$251.05, own weighting");
        Ok(())
    }

    // The strings come out where there is memory: their contracts speak of that case alone.
    #[test]
    fn strings_come_out(rt: HostRuntime) -> Result<(), Fail> {
        let price = price_text(rt.alloc(), -25_105, Origin::Own)?;
        assert_eq!(rt; price.as_str(), "-$251.05, own weighting");
        let call = Call::Place {
            bus: 8,
            hub_bus: 1,
            zone: 0,
        };
        let line = write(rt.alloc(), &call)?;
        assert_eq!(rt; line.as_str(), "place 8 1 0");
        let reply = Reply::Answered(call, Err(Refusal::HubBusFull)).text(rt.alloc())?;
        assert_eq!(rt;
            reply.as_str(),
            "place 8 1 0: refused 4, hub bus has eight other buses"
        );
        Ok(())
    }

    // A refusal is printed as its meaning.
    #[test]
    fn refusal_in_words(rt: HostRuntime) -> Result<(), Fail> {
        let refusal = Refusal::NotPosted;
        let text = format!(in rt.alloc(); "{refusal}")?;
        assert_eq!(rt; text.as_str(), "constraint is not posted");
        Ok(())
    }
}
