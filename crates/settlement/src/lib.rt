// A run of one operating hour: calls, saves, resumes and questions for prices, worked on a fresh book.
#![tactic(auto)]

pub mod deeds;
pub mod runs;
