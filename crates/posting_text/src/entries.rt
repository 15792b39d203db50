// The entry that a posting line's numbers make, or the refusal of the first that is outside its limits.
ghost use Rattle.std.specs.Prelude.{◌≡◌};
ghost use Rattle.posting_text.specs.Entries.{entry_of};

use faults::{Spot, at};
use posting::limits::{COLUMNS, counted};
use refusals::Refusal;

// The numbers in a line's fields.
#[derive(Clone, Copy, PartialEq, Eq, Debug)]
pub struct Numbers {
    pub bus: i64,
    pub column: i64,
    pub value: i64,
}

// The number that a line posts for a bus and column.
#[derive(Clone, Copy, PartialEq, Eq, Debug)]
pub struct Entry {
    pub bus: u8,
    pub column: u8,
    pub number: i32,
}

impl Numbers {
    // The entry that the numbers make, or the first that is refused, with its field.
    pub fn entry(self) -> Result<Entry, Spot>
        ensures { result ≡ entry_of self }
    {
        let bus = at(2, u8::try_from(self.bus).or(Err(Refusal::BusOutside)))?;
        let column = u8::try_from(self.column)
            .ok()
            .filter(|column| usize::from(*column) < COLUMNS)
            .ok_or(Refusal::ConstraintOutside);
        let column = at(3, column)?;
        let number = at(4, counted(self.value).ok_or(Refusal::PostedOutside))?;
        Ok(Entry {
            bus,
            column,
            number,
        })
    }
}
