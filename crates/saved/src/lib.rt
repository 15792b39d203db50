// The saved text of an hour, read and written.
#![tactic(auto)]

pub mod line;
pub mod reading;
