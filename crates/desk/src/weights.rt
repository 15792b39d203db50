// What a point's buses weigh, for a person.
use crate::replies::Refused;
use hour::book::Book;
use std::fmt;
use weighting::points::{Point, weigh};
use weighting::weights::Weights;

// A question for weights, in the base case or under a constraint, and its answer from the book.
#[derive(Drop)]
pub struct Weighing<'a> {
    pub book: &'a Book,
    pub point: Point,
    pub constraint: Option<i64>,
}

impl fmt::Display for Weighing<'_> {
    fn fmt<W: fmt::Write>(&self, f: &mut fmt::Formatter<W>) -> fmt::Result {
        let Point { kind, number } = self.point;
        write!(f, "weights {kind} {number}")?;
        if let Some(k) = self.constraint {
            write!(f, " {k}")?;
        }
        match weigh(self.book, self.point, self.constraint) {
            Ok(weights) => write!(f, ":\n{}", Rows(&weights)),
            Err(refusal) => writeln!(f, ": {}", Refused(refusal)),
        }
    }
}

// A row for each bus that weighs something, and the total.
#[derive(Drop)]
struct Rows<'a>(&'a Weights);

impl fmt::Display for Rows<'_> {
    fn fmt<W: fmt::Write>(&self, f: &mut fmt::Formatter<W>) -> fmt::Result {
        let Weights { weights, total } = self.0;
        for (bus, weight) in weights
            .iter()
            .enumerate()
            .filter(|(_, weight)| **weight > 0)
        {
            writeln!(f, "  bus {bus:>5}{weight:>9}")?;
        }
        writeln!(f, "  total    {total:>9}")
    }
}
