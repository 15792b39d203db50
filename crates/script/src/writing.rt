// Calls as lines of a script.
ghost use Rattle.std.specs.Prelude.{◌≡◌, IfOk, Some, Ok, string_bytes};
ghost use Rattle.std.specs.Fmt.{WritesOnOk};
ghost use Rattle.script.specs.Commands.{command};
ghost use Rattle.script.specs.Words.{words};
ghost use Rattle.script.specs.Written.{written};

use crate::commands::Command;
use hour::calls::Call;
use std::alloc::{AllocError, Global};
use std::fmt;

// A call as its line.
#[derive(Clone, Copy)]
pub struct Written<'a>(pub &'a Call);

impl fmt::Display for Written<'_> {
    ghost output = { λ line. Some (written line.0.now) };

    fn fmt<W: fmt::Write>(&self, f: &mut fmt::Formatter<W>) -> fmt::Result {
        write_to(self.0, f)
    }
}

// The call's line as a string, which is read back as the call.
#[tactic(auto, using(crate::proofs::Backs::back))]
pub fn write(heap: Global, call: &Call) -> Result<String, AllocError>
    ensures made { IfOk result (λ s. string_bytes s ≡ written call.now) }
    ensures back { command (words (written call.now)) ≡ Ok (Some (Command.Call call.now)) }
{
    reads_back(*call);
    let line = Written(call);
    format!(in heap; "{line}")
}

// A call's line is read back as the call. Nothing is done: a call by value carries the ranges of its numbers, which the law needs.
#[tactic(auto, using(crate::proofs::Backs::back))]
fn reads_back(call: Call)
    ensures { command (words (written call)) ≡ Ok (Some (Command.Call call)) }
{}

// Writes the call's line, which is read back as the call.
#[tactic(auto, using(crate::proofs::Backs::back))]
pub fn write_to<W: fmt::Write>(call: &Call, f: &mut fmt::Formatter<W>) -> fmt::Result
    ensures made { WritesOnOk W.write_str_gives f.old result (written call.now) f.new }
    ensures back { command (words (written call.now)) ≡ Ok (Some (Command.Call call.now)) }
{
    match *call {
        Call::Place { bus, hub_bus, zone } => write!(f, "place {bus} {hub_bus} {zone}"),
        Call::Status { bus, market, live } => {
            let live = if live { "live" } else { "dead" };
            write!(f, "status {market} {bus} {live}")
        }
        Call::Load { bus, market, load } => write!(f, "load {market} {bus} {load}"),
        Call::Lambda { lambda } => write!(f, "lambda {lambda}"),
        Call::Post {
            constraint,
            shadow_price,
        } => write!(f, "post {constraint} {shadow_price}"),
        Call::Strike { constraint } => write!(f, "strike {constraint}"),
        Call::Outage {
            constraint,
            bus,
            out,
        } => {
            let out = if out { "on" } else { "off" };
            write!(f, "outage {constraint} {bus} {out}")
        }
        Call::EnterRun {
            run,
            seconds,
            reserve_adder,
            reliability_adder,
        } => write!(f, "run {run} {seconds} {reserve_adder} {reliability_adder}"),
        Call::DropRun { run } => write!(f, "drop {run}"),
    }
}
