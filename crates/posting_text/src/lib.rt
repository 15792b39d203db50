// Posting text: lines of numbers by bus and column, checked, read directly, and written into a table.
#![tactic(auto)]

pub mod checking;
pub mod direct;
pub mod entries;
pub mod filling;
pub mod lines;
mod texts;
