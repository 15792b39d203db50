// A posting read from the lines of a text, right or wrong.
ghost use Rattle.std.specs.Prelude.{◌≡◌, ◌&&◌, ◌==◌};
ghost use Rattle.posting_text.specs.Texts.{lines};
ghost use Rattle.posting_text.specs.Direct.{last_entry};
ghost use Rattle.posting_text.specs.Meanings.{direct_grid};
ghost use Rattle.posting_text.specs.Laws.{DirectLaws};

use crate::entries::Entry;
use crate::lines::read_entry;
use crate::texts::Lines;
use posting::Posting;

// The last complete line of right form and values for a bus and column counts, and 0 where there is none.
#[derive(Clone, Copy, PartialEq, Eq, Debug)]
pub struct Direct<'a> {
    pub text: &'a [u8],
}

impl<'a> Direct<'a> {
    // The posting that a text means.
    pub fn over(text: &'a [u8]) -> Direct<'a>
        ensures made { result.text.now ≡ text.now }
        ensures laws { DirectLaws text.now (direct_grid result.text.now) }
    {
        Direct { text }
    }
}

impl Entry {
    // Whether the entry is for this bus and column.
    fn is_at(self, bus: usize, column: usize) -> bool
        ensures { result ≡ (self.bus == bus && self.column == column) }
    {
        usize::from(self.bus) == bus && usize::from(self.column) == column
    }
}

// The last right line's entry for a bus and column.
fn last_entry(text: &[u8], bus: usize, column: usize) -> Option<Entry>
    ensures { result ≡ last_entry bus column (lines text.now) }
{
    Lines::of(text)
        .filter_map(|line| read_entry(line).ok())
        .filter(|entry| entry.is_at(bus, column))
        .last()
}

impl Posting for Direct<'_> {
    ghost grid = { λ d. direct_grid d.text.now };

    #[tactic(auto, using(crate::proofs::LastEntry::direct_last), unfolding(crate::specs::Meanings::direct_grid))]
    fn number(&self, bus: usize, column: usize) -> i32 {
        last_entry(self.text, bus, column).map_or(0, |entry| entry.number)
    }
}
