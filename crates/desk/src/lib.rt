// A desk's session with one hour book: a line in, a reply out.
#![tactic(auto)]

pub mod console;
pub mod factors;
pub mod price_texts;
pub mod prices;
pub mod replies;
pub mod sessions;
pub mod summaries;
pub mod weights;
