// A script of calls on an hour book, a line at a time.
#![tactic(auto)]

pub mod commands;
pub mod factors;
pub mod verbs;
mod words;
pub mod writing;
