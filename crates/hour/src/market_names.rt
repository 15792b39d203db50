// Markets as they are written.
ghost use Rattle.std.specs.Prelude.{◌≡◌, Some};
ghost use Rattle.std.specs.Result.{result_ok};
ghost use Rattle.hour.specs.MarketNames.{market_name, market_of};

use crate::records::Market;
use std::fmt;
use std::str::FromStr;

// The text is the name of no market. Each kind of name has an error of its own, as `FromStr` asks.
#[derive(Clone, Copy, Debug, PartialEq, Eq)]
pub struct UnknownMarket;

impl FromStr for Market {
    type Err = UnknownMarket;

    ghost from_str_gives = { λ name r. result_ok r ≡ market_of name };

    fn from_str(name: &str) -> Result<Market, UnknownMarket> {
        match name {
            "day-ahead" => Ok(Market::DayAhead),
            "real-time" => Ok(Market::RealTime),
            _ => Err(UnknownMarket),
        }
    }
}

impl fmt::Display for Market {
    ghost output = { λ market. Some (market_name market) };

    fn fmt<W: fmt::Write>(&self, f: &mut fmt::Formatter<W>) -> fmt::Result {
        f.write_str(match self {
            Market::DayAhead => "day-ahead",
            Market::RealTime => "real-time",
        })
    }
}
