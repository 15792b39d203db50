// Real-time prices of any weighting over any posting.
#![tactic(auto)]

pub mod prices;
