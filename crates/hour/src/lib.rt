// One operating hour as a value that cannot be wrong: a book of buses, constraints and runs, changed by its calls alone.
#![tactic(auto)]

pub mod book;
pub mod calls;
pub mod limits;
pub mod market_names;
pub mod records;
