// What a line of a session gets for an answer.
ghost use Rattle.std.specs.Prelude.{◌≡◌, IfOk, Some, string_bytes};
ghost use Rattle.desk.specs.Replies.{refused_text, reply_text};

use hour::calls::Call;
use refusals::Refusal;
use script::commands::NotACall;
use script::writing::Written;
use std::alloc::{AllocError, Global};
use std::fmt;
use weighting::points::Point;

#[derive(Clone, Copy, PartialEq, Eq, Debug)]
pub enum Reply {
    // An empty line or a remark.
    Passed,
    // A call, and what it answered.
    Answered(Call, Result<(), Refusal>),
    // The weights of a point are asked for, in the base case or under a constraint.
    Weighed(Point, Option<i64>),
    // The summary of the book is asked for.
    Shown,
    // The list of calls is asked for.
    Helped,
    // No call.
    Misread(NotACall),
}

impl Reply {
    // The reply in words, as a string.
    pub fn text(&self, heap: Global) -> Result<String, AllocError>
        ensures { IfOk result (λ s. string_bytes s ≡ reply_text self.now) }
    {
        format!(in heap; "{self}")
    }
}

// The reply in words: the call as it was understood, with its answer, or what is wrong with the line.
// Nothing where the line is passed over, or where weights, a summary or the list of calls are to follow.
impl fmt::Display for Reply {
    ghost output = { λ reply. Some (reply_text reply) };

    fn fmt<W: fmt::Write>(&self, f: &mut fmt::Formatter<W>) -> fmt::Result {
        match self {
            Reply::Passed | Reply::Weighed(_, _) | Reply::Shown | Reply::Helped => Ok(()),
            Reply::Answered(call, Ok(())) => write!(f, "{}: granted", Written(call)),
            Reply::Answered(call, Err(refusal)) => {
                write!(f, "{}: {}", Written(call), Refused(*refusal))
            }
            Reply::Misread(fault) => write!(f, "{fault}"),
        }
    }
}

// A refusal as an answer.
#[derive(Drop)]
pub struct Refused(pub Refusal);

impl fmt::Display for Refused {
    ghost output = { λ refused. Some (refused_text refused.0) };

    fn fmt<W: fmt::Write>(&self, f: &mut fmt::Formatter<W>) -> fmt::Result {
        let number = self.0.number();
        let meaning = self.0.meaning();
        write!(f, "refused {number}, {meaning}")
    }
}
