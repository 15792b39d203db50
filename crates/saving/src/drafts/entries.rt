// The entries of a book's tables, each as its lines.
ghost use Rattle.std.specs.Prelude.{ℕ, List};
ghost use Rattle.bus_set.specs.Sets.{member};
ghost use Rattle.saved_rows.specs.declared.row.Row.{Row as Line};
ghost use Rattle.saved_rows.specs.Rows.{bus_rows, outage_rows, constraint_rows, run_row};
ghost use Rattle.saving.specs.Growing.{Grows};

use crate::drafts::Draft;
use bus_set::{BusSet, contains};
use hour::records::{Bus, Constraint, Run};
use saved_rows::row::{BusRow, Row};

// An entry of a table.
pub trait Entry {
    ghost rows: { ℕ → Self → List Line };

    // Adds the lines of entry k.
    fn push(&self, k: u8, draft: &mut Draft)
        ensures { Grows (rows k self.now) draft.old draft.new };
}

impl Entry for Bus {
    ghost rows = { bus_rows };

    // A bus that is all 0 has no line.
    #[tactic(auto, using(crate::proofs::Growing::grow_none))]
    fn push(&self, k: u8, draft: &mut Draft) {
        let row = Row::Bus(BusRow::of(k, *self));
        if !row.is_blank() {
            draft.push_row(row);
        }
    }
}

impl Entry for Option<Constraint> {
    ghost rows = { constraint_rows };

    #[tactic(auto, using(crate::proofs::Growing::grow_none))]
    fn push(&self, k: u8, draft: &mut Draft) {
        if let Some(posted) = self {
            draft.push_row(Row::Constraint {
                constraint: i64::from(k),
                shadow_price: posted.shadow_price,
            });
            push_outages(draft, k, posted.out);
        }
    }
}

// A set of buses is four words, with nothing to go through but its buses by number.
fn push_outages(draft: &mut Draft, k: u8, out: BusSet)
    ensures { Grows (outage_rows k (member out) 256) draft.old draft.new }
{
    for bus in 0..=255u8 {
        if contains(out, bus) {
            draft.push_row(Row::Outage {
                constraint: i64::from(k),
                bus: i64::from(bus),
            });
        }
    }
}

impl Entry for Option<Run> {
    ghost rows = { run_row };

    #[tactic(auto, using(crate::proofs::Growing::grow_none))]
    fn push(&self, k: u8, draft: &mut Draft) {
        if let Some(entered) = self {
            draft.push_row(Row::Run {
                run: i64::from(k),
                seconds: i64::from(entered.seconds),
                reserve_adder: entered.reserve_adder,
                reliability_adder: entered.reliability_adder,
            });
        }
    }
}
