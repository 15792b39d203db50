// Prices of hubs, load zones and ties, each with its origin.
#![tactic(auto)]

pub mod markets;
pub mod origins;
pub mod points;
