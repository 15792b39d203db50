// Kinds of points as they are written.
ghost use Rattle.std.specs.Prelude.{◌≡◌, Some};
ghost use Rattle.std.specs.Result.{result_ok};
ghost use Rattle.weighting.specs.KindNames.{kind_name, kind_of};

use crate::points::Kind;
use std::fmt;
use std::str::FromStr;

// The text is the name of no kind of points. Names of each sort have an error of their own, as `FromStr` asks for one.
#[derive(Clone, Copy, Debug, PartialEq, Eq)]
pub struct UnknownKind;

impl FromStr for Kind {
    type Err = UnknownKind;

    ghost from_str_gives = { λ name r. result_ok r ≡ kind_of name };

    fn from_str(name: &str) -> Result<Kind, UnknownKind> {
        match name {
            "hub" => Ok(Kind::Hub),
            "zone" => Ok(Kind::Zone),
            "tie" => Ok(Kind::Tie),
            _ => Err(UnknownKind),
        }
    }
}

impl fmt::Display for Kind {
    ghost output = { λ kind. Some (kind_name kind) };

    fn fmt<W: fmt::Write>(&self, f: &mut fmt::Formatter<W>) -> fmt::Result {
        f.write_str(match self {
            Kind::Hub => "hub",
            Kind::Zone => "zone",
            Kind::Tie => "tie",
        })
    }
}
