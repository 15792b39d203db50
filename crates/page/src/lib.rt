// A text composed in a fixed memory, and written to a caller's buffer.
#![tactic(auto)]

pub mod pages;
