// A book worked a line at a time.
ghost use Rattle.std.specs.Prelude.{◌≡◌};
ghost use Rattle.hour.specs.Hour.{entries};
ghost use Rattle.hour.specs.Replays.{after};
ghost use Rattle.hour.specs.declared.calls.Call.{Call};
ghost use Rattle.script.specs.Commands.{command};
ghost use Rattle.script.specs.Words.{words};
ghost use Rattle.script.specs.Written.{written, Fits64};
ghost use Rattle.desk.specs.Sessions.{hour_after, reply_to};

use crate::replies::Reply;
use hour::book::Book;
use script::commands::{Command, read};

// Works one line. Only a granted call changes the book, and the line that a call is written as does that call.
pub fn work(book: &mut Book, line: &str) -> Reply
    ensures hour { entries book.new ≡ hour_after (entries book.old) (command (words line.now)) }
    ensures reply { result ≡ reply_to (entries book.old) (command (words line.now)) }
    ensures written { (call : Call) → Fits64 call → line.now ≡ written call → entries book.new ≡ after (entries book.old) call }
{
    match read(line) {
        Err(fault) => Reply::Misread(fault),
        Ok(None) => Reply::Passed,
        Ok(Some(Command::Weights(point, constraint))) => Reply::Weighed(point, constraint),
        Ok(Some(Command::Show)) => Reply::Shown,
        Ok(Some(Command::Help)) => Reply::Helped,
        Ok(Some(Command::Call(call))) => Reply::Answered(call, book.apply(&call)),
    }
}
