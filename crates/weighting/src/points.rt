// Points by kind and number, and what their buses weigh in the day-ahead base case or under a posted constraint.
ghost use Rattle.std.specs.Prelude.{◌≡◌};
ghost use Rattle.hour.specs.Hour.{entries};
ghost use Rattle.bounds.specs.Bounds.{up_to};
ghost use Rattle.weighting.specs.SettlementPoints.{PointNamed, point_meaning};
ghost use Rattle.weighting.specs.Weighed.{case_of, numbered, CasedIn, WeighedAt};

use crate::cases::Case;
use crate::hubs::Hub;
use crate::ties::Tie;
use crate::weightings::Weighting;
use crate::weights::Weights;
use crate::zones::Zone;
use bounds::up_to;
use hour::book::Book;
use hour::limits::LAST_CONSTRAINT;
use hour::records::Market;
use refusals::Refusal;

#[derive(Clone, Copy, PartialEq, Eq, Debug)]
pub enum Kind {
    Hub,
    Zone,
    Tie,
}

// A point as someone names it. Whether it is one is looked at when it is asked about.
#[derive(Clone, Copy, PartialEq, Eq, Debug)]
pub struct Point {
    pub kind: Kind,
    pub number: i64,
}

// A point that there is, with its weighting.
#[derive(Clone, Copy, PartialEq, Eq, Debug)]
pub enum SettlementPoint {
    Hub(Hub),
    Zone(Zone),
    Tie(Tie),
}

impl TryFrom<Point> for SettlementPoint {
    type Error = Refusal;

    ghost try_from_gives = { PointNamed };

    fn try_from(point: Point) -> Result<SettlementPoint, Refusal> {
        match point.kind {
            Kind::Hub => Hub::try_from(point.number).map(SettlementPoint::Hub),
            Kind::Zone => Zone::try_from(point.number).map(SettlementPoint::Zone),
            Kind::Tie => Tie::try_from(point.number).map(SettlementPoint::Tie),
        }
    }
}

impl Weighting for SettlementPoint {
    ghost meaning = { point_meaning };

    fn weights(&self, case: &Case) -> [u32; 256] {
        match self {
            SettlementPoint::Hub(hub) => hub.weights(case),
            SettlementPoint::Zone(zone) => zone.weights(case),
            SettlementPoint::Tie(tie) => tie.weights(case),
        }
    }
}

// The weights of a point's buses, in the base case or under a constraint. The point is looked at first, then the
// constraint's number, then whether it is posted.
#[tactic(auto, using(crate::proofs::SettlementPoints::of_none, crate::proofs::Weighed::weighed_at))]
pub fn weigh(book: &Book, point: Point, constraint: Option<i64>) -> Result<Weights, Refusal>
    ensures { WeighedAt book.now point constraint result }
{
    let point = SettlementPoint::try_from(point)?;
    let case = case(book, constraint)?;
    Ok(point.weigh(&case))
}

// The day-ahead base case, or the case under a posted constraint.
fn case(book: &Book, constraint: Option<i64>) -> Result<Case<'_>, Refusal>
    ensures { CasedIn book.now (case_of (entries book.now) constraint) result }
{
    // A match, since `map_or_else` would only hold the two arms in closures.
    match constraint {
        None => Ok(Case::base(book, Market::DayAhead)),
        Some(number) => case_under(book, number),
    }
}

fn case_under(book: &Book, number: i64) -> Result<Case<'_>, Refusal>
    ensures { CasedIn book.now (numbered (entries book.now) (up_to number 31)) result }
{
    // At most 31, so it fits: an error to take apart would be no plainer.
    let k = up_to(number, LAST_CONSTRAINT, Refusal::ConstraintOutside)? as u8;
    Case::under(book, k).ok_or(Refusal::NotPosted)
}
