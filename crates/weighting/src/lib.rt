// What each bus weighs in a case: the interface with its laws, and the weightings of hubs, load zones and ties.
#![tactic(auto)]

pub mod cases;
mod each;
pub mod hubs;
pub mod kind_names;
pub mod points;
pub mod ties;
pub mod under;
pub mod weightings;
pub mod weights;
pub mod zones;
