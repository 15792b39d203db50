// A saved text as it is composed.
use crate::LONGEST;
use page::pages::Page;

mod entries;
mod lines;
mod rows;

// What is written so far, and how many lines that is. Lines are counted as they are written, since the last one needs their number
// and a count of line ends would be a pass over the text. The count ends at its last number in place of passing it, and so asks no
// caller for a bound; no hour has so many lines.
#[derive(Drop)]
pub struct Draft {
    pub page: Page<LONGEST>,
    lines: u32,
}
