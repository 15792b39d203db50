// Why a call is refused, and the number that a user is given for it.
#![tactic(auto)]

ghost use Rattle.std.specs.Prelude.{◌≡◌, Some};
ghost use Rattle.refusals.specs.Numbers.{number};
ghost use Rattle.refusals.specs.Words.{meaning};

use std::error::Error;
use std::fmt;

// One case for each reason. Limits stand with the records that they bound.
#[derive(Clone, Copy, PartialEq, Eq, Debug)]
pub enum Refusal {
    BusOutside = 1,
    HubBusOutside = 2,
    ZoneOutside = 3,
    HubBusFull = 4,
    LoadOutside = 5,
    ConstraintOutside = 6,
    ShadowPriceOutside = 7,
    NotPosted = 8,
    LambdaOutside = 9,
    RunOutside = 10,
    SecondsOutside = 11,
    AdderOutside = 12,
    NotEntered = 13,
    BufferShort = 14,
    NoLambda = 19,
    SecondsShort = 20,
    NoWeight = 21,
    PointOutside = 22,
    PostedOutside = 23,
}

impl Refusal {
    // The refusal's number, which no other refusal has.
    pub fn number(self) -> u8
        ensures value { result ≡ number self }
        ensures apart { (e : Refusal) → number e ≡ result → e ≡ self }
    {
        self as u8
    }

    // What the refusal means, for a person.
    pub fn meaning(self) -> &'static str
        ensures { result.now ≡ meaning self }
    {
        match self {
            Refusal::BusOutside => "bus is not 0 to 255",
            Refusal::HubBusOutside => "hub bus is not 0 to 155",
            Refusal::ZoneOutside => "zone is not 0 to 16",
            Refusal::HubBusFull => "hub bus has eight other buses",
            Refusal::LoadOutside => "load is not 0 to 10000 tenths of a megawatt",
            Refusal::ConstraintOutside => "constraint is not 0 to 31",
            Refusal::ShadowPriceOutside => "shadow price is not within 1000000 cents of 0",
            Refusal::NotPosted => "constraint is not posted",
            Refusal::LambdaOutside => "lambda is not within 100000000000000 fine units of 0",
            Refusal::RunOutside => "run is not 0 to 15",
            Refusal::SecondsOutside => "seconds are below 1, or all runs together above 900",
            Refusal::AdderOutside => "adder is not within 1000000 cents of 0",
            Refusal::NotEntered => "run is not entered",
            Refusal::BufferShort =>
                "buffer is shorter than the output, or table under 8192 entries",
            Refusal::NoLambda => "lambda is not set",
            Refusal::SecondsShort => "seconds are not 900 in all",
            Refusal::NoWeight => "no live bus has weight",
            Refusal::PointOutside => "hub is not 1 to 6, zone not 1 to 16, or tie bus not 0 to 255",
            Refusal::PostedOutside => "posted number is not within 1000000 of 0",
        }
    }
}

// Printed, a refusal is its meaning.
impl fmt::Display for Refusal {
    ghost output = { λ e. Some (meaning e) };

    fn fmt<W: fmt::Write>(&self, f: &mut fmt::Formatter<W>) -> fmt::Result {
        f.write_str(self.meaning())
    }
}

impl Error for Refusal {}
