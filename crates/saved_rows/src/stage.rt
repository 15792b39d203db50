// Which line may come next.
ghost use Rattle.std.specs.Prelude.{◌≡◌};
ghost use Rattle.saved_rows.specs.Order.{follows, finished, next, misplaced};

use crate::row::Row;
use faults::{Spot, Why};

// What the order of lines goes by: the kind of a line, and the numbers that ascend.
#[derive(Clone, Copy, PartialEq, Eq, Debug)]
pub enum Kind {
    Bus(i64),
    Lambda,
    Constraint(i64),
    Outage(i64, i64),
    Run(i64),
    End,
}

// How far a text is read: the kind of the line just read, and none before the first.
#[derive(Clone, Copy, PartialEq, Eq, Debug, Default)]
pub struct Stage {
    pub last: Option<Kind>,
}

impl Stage {
    // Whether the last line is read.
    pub fn is_done(self) -> bool
        ensures { result ≡ finished self }
    {
        self.last == Some(Kind::End)
    }

    // The stage after a line of the kind, where it may come now.
    pub fn after(self, kind: Kind) -> Option<Stage>
        ensures { result ≡ follows self kind }
    {
        let next = Some(Stage { last: Some(kind) });
        match (kind, self.last) {
            (_, Some(Kind::End)) => None,
            (Kind::Bus(_), None) => next,
            (Kind::Bus(bus), Some(Kind::Bus(last))) if last < bus => next,
            (Kind::Lambda, None | Some(Kind::Bus(_))) => next,
            (Kind::Constraint(_), None | Some(Kind::Bus(_) | Kind::Lambda)) => next,
            (Kind::Constraint(c), Some(Kind::Constraint(last))) if last < c => next,
            (Kind::Constraint(c), Some(Kind::Outage(last, _))) if last < c => next,
            (Kind::Outage(c, _), Some(Kind::Constraint(own))) if own == c => next,
            (Kind::Outage(c, bus), Some(Kind::Outage(own, last))) if own == c && last < bus => next,
            (Kind::Run(run), Some(Kind::Run(last))) if run <= last => None,
            (Kind::Run(_) | Kind::End, _) => next,
            _ => None,
        }
    }

    // The stage after a line, or that the line is out of order: a bus line that says nothing always is.
    pub fn next(self, row: Row) -> Result<Stage, Spot>
        ensures { result ≡ next self row }
    {
        // By `then` and `and_then` it would be no shorter.
        let next = if row.is_blank() {
            None
        } else {
            self.after(row.kind())
        };
        next.ok_or(Spot::from(Why::Order))
    }
}
