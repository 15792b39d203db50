// Where a price comes from, and the average that stands in for a hub without live weight.
ghost use Rattle.std.specs.Prelude.{◌≡◌};
ghost use Rattle.pricing.specs.Origins.{letter, own_price, from_average};

use refusals::Refusal;

#[derive(Clone, Copy, PartialEq, Eq, Debug)]
pub enum Origin {
    // The point's own weighting.
    Own,
    // The average's weighting, for a hub that has no live weight.
    Average,
    // No weighting: neither the hub nor the average has live weight.
    Nothing,
}

impl Origin {
    // The letter that stands for the origin on a price line.
    pub fn letter(self) -> char
        ensures { result ≡ letter self }
    {
        match self {
            Origin::Own => 'O',
            Origin::Average => 'A',
            Origin::Nothing => 'N',
        }
    }
}

// A price of the point's own weighting.
pub fn own_price(price: Result<i64, Refusal>) -> Result<(i64, Origin), Refusal>
    ensures { result ≡ own_price price }
{
    price.map(|cents| (cents, Origin::Own))
}

// The average's price for a hub without live weight: 0 cents where the average has none either.
pub fn from_average(average: Result<i64, Refusal>) -> Result<(i64, Origin), Refusal>
    ensures { result ≡ from_average average }
{
    // A match, since `or_else` would only hold the same match in its closure.
    match average.map(|cents| (cents, Origin::Average)) {
        Err(Refusal::NoWeight) => Ok((0, Origin::Nothing)),
        priced => priced,
    }
}
