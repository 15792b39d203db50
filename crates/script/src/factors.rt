// A number for the table of posted numbers, as a desk is told it. Whether the table has such a place is looked at when it is written.

// The number of a bus in a column: a shift factor in millionths under a constraint, or a price in cents in a run.
// The desk's table alone takes it: a script has no line for it yet.
#[derive(Clone, Copy, Debug, PartialEq, Eq)]
pub struct Factor {
    pub bus: i64,
    pub column: i64,
    pub number: i64,
}
