// The lines of an hour's saved text as numbers: their order, the lines of an hour, and a line entered into a book.
#![tactic(auto)]

pub mod entering;
pub mod row;
pub mod stage;
