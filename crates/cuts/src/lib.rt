// Texts cut into lines, and lines into fields.
#![tactic(auto)]

pub mod fields;
pub mod pieces;
