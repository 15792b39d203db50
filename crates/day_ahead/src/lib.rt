// Day-ahead prices, for every weighting and every posting.
#![tactic(auto)]

mod contributions;
pub mod prices;
