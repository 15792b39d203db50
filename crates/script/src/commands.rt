// What a line of a script says.
ghost use Rattle.std.specs.Prelude.{◌≡◌, Some, Ok};
ghost use Rattle.script.specs.Commands.{arguments, command};
ghost use Rattle.script.specs.Faults.{fault_text};
ghost use Rattle.script.specs.Readings.{left};
ghost use Rattle.script.specs.Words.{words};
ghost use Rattle.script.specs.Written.{written, Fits64};

use crate::verbs::Verb;
use crate::words::Words;
use hour::calls::Call;
use std::error::Error;
use std::fmt;
use weighting::points::Point;

#[derive(Clone, Copy, PartialEq, Eq, Debug)]
pub enum Command {
    Call(Call),
    // What a point's buses weigh, in the base case or under a constraint.
    Weights(Point, Option<i64>),
    Show,
    Help,
}

// Why a line is no command.
#[derive(Clone, Copy, Debug, PartialEq, Eq)]
pub enum NotACall {
    // No verb has the name of the first word.
    Unknown,
    // The words after the verb are not those that it takes.
    Usage(Verb),
}

impl fmt::Display for NotACall {
    ghost output = { λ fault. Some (fault_text fault) };

    fn fmt<W: fmt::Write>(&self, f: &mut fmt::Formatter<W>) -> fmt::Result {
        match self {
            NotACall::Unknown => f.write_str("no such call; help lists them"),
            NotACall::Usage(verb) => write!(f, "not a call; write {}", verb.usage()),
        }
    }
}

impl Error for NotACall {}

// The command of a verb and the words after it, where they fit.
fn arguments(verb: Verb, mut args: Words<'_>) -> Option<Command>
    ensures value { result ≡ arguments verb (left args.entry) }
{
    let call = match verb {
        Verb::Place => Call::Place {
            bus: args.read()?,
            hub_bus: args.read()?,
            zone: args.read()?,
        },
        Verb::Status => Call::Status {
            market: args.read()?,
            bus: args.read()?,
            live: args.choice("live", "dead")?,
        },
        Verb::Load => Call::Load {
            market: args.read()?,
            bus: args.read()?,
            load: args.read()?,
        },
        Verb::Lambda => Call::Lambda {
            lambda: args.read()?,
        },
        Verb::Post => Call::Post {
            constraint: args.read()?,
            shadow_price: args.read()?,
        },
        Verb::Strike => Call::Strike {
            constraint: args.read()?,
        },
        Verb::Outage => Call::Outage {
            constraint: args.read()?,
            bus: args.read()?,
            out: args.choice("on", "off")?,
        },
        Verb::Run => Call::EnterRun {
            run: args.read()?,
            seconds: args.read()?,
            reserve_adder: args.read()?,
            reliability_adder: args.read()?,
        },
        Verb::Drop => Call::DropRun { run: args.read()? },
        Verb::Weights => {
            let point = Point {
                kind: args.read()?,
                number: args.read()?,
            };
            return Some(Command::Weights(point, args.last()?));
        }
        Verb::Show => return args.end(Command::Show),
        Verb::Help => return args.end(Command::Help),
    };
    args.end(Command::Call(call))
}

// The command that words make, or `None` where there are none or they are a remark.
fn of_words(mut words: Words<'_>) -> Result<Option<Command>, NotACall>
    ensures value { result ≡ command (left words.entry) }
{
    let Some(first) = words.next().filter(|word| !word.starts_with('#')) else {
        return Ok(None);
    };
    let verb = first.parse::<Verb>()?;
    arguments(verb, words)
        .map(Some)
        .ok_or(NotACall::Usage(verb))
}

// The command that a line is, or `None` where the line is passed over. A line that writes a call is that call.
#[tactic(auto, using(crate::proofs::Backs::reads_back))]
pub fn read(line: &str) -> Result<Option<Command>, NotACall>
    ensures value { result ≡ command (words line.now) }
    ensures back { (c : Call) → Fits64 c → line.now ≡ written c → result ≡ Ok (Some (Command.Call c)) }
{
    of_words(Words::of(line))
}
