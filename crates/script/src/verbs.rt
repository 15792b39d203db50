// The first words of a script's lines.
ghost use Rattle.std.specs.Prelude.{◌≡◌, ℕ, slice_index_or};
ghost use Rattle.std.specs.Option.{ok_or};
ghost use Rattle.script.specs.declared.commands.NotACall.TheVariants.{Unknown};
ghost use Rattle.script.specs.Verbs.{all_verbs, usage, verb_of};

use crate::commands::NotACall;
use std::str::FromStr;

// One case for each word that a line may begin with. Its name and usage are matches and no table, so that no case can be left out.
#[derive(Clone, Copy, Debug, PartialEq, Eq)]
pub enum Verb {
    Place,
    Status,
    Load,
    Lambda,
    Post,
    Strike,
    Outage,
    Run,
    Drop,
    Weights,
    Show,
    Help,
}

impl Verb {
    // All verbs, in the order in which a person is told of them.
    pub fn all() -> [Verb; 12]
        ensures value { result ≡ all_verbs }
        ensures every { (v : Verb) → (i : ℕ) × (slice_index_or result i Verb.Help ≡ v) }
    {
        [
            Verb::Place,
            Verb::Status,
            Verb::Load,
            Verb::Lambda,
            Verb::Post,
            Verb::Strike,
            Verb::Outage,
            Verb::Run,
            Verb::Drop,
            Verb::Weights,
            Verb::Show,
            Verb::Help,
        ]
    }

    // How a line with the verb is written, for a person: capitals stand for a number.
    pub fn usage(self) -> &'static str
        ensures value { result.now ≡ usage self }
    {
        match self {
            Verb::Place => "place BUS HUB_BUS ZONE",
            Verb::Status => "status day-ahead|real-time BUS live|dead",
            Verb::Load => "load day-ahead|real-time BUS TENTHS",
            Verb::Lambda => "lambda FINE_UNITS",
            Verb::Post => "post CONSTRAINT SHADOW_PRICE",
            Verb::Strike => "strike CONSTRAINT",
            Verb::Outage => "outage CONSTRAINT BUS on|off",
            Verb::Run => "run RUN SECONDS RESERVE_ADDER RELIABILITY_ADDER",
            Verb::Drop => "drop RUN",
            Verb::Weights => "weights hub|zone|tie NUMBER [CONSTRAINT]",
            Verb::Show => "show",
            Verb::Help => "help",
        }
    }
}

// The verb that a word names.
impl FromStr for Verb {
    type Err = NotACall;

    ghost from_str_gives = { λ word r. r ≡ ok_or (verb_of word) Unknown };

    fn from_str(word: &str) -> Result<Verb, NotACall> {
        match word {
            "place" => Ok(Verb::Place),
            "status" => Ok(Verb::Status),
            "load" => Ok(Verb::Load),
            "lambda" => Ok(Verb::Lambda),
            "post" => Ok(Verb::Post),
            "strike" => Ok(Verb::Strike),
            "outage" => Ok(Verb::Outage),
            "run" => Ok(Verb::Run),
            "drop" => Ok(Verb::Drop),
            "weights" => Ok(Verb::Weights),
            "show" => Ok(Verb::Show),
            "help" => Ok(Verb::Help),
            _ => Err(NotACall::Unknown),
        }
    }
}
