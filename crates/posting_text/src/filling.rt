// A posting text written into a table.
ghost use Rattle.std.specs.Prelude.{◌≡◌, ℕ, true, is_err, Ok, Err, MatchResult, OnOk};
ghost use Rattle.posting_text.specs.Lines.{line_entry};
ghost use Rattle.posting_text.specs.Texts.{lines};
ghost use Rattle.posting_text.specs.Filling.{table_after, table_from, granting, Filled};
ghost use Rattle.posting_text.specs.Laws.{FillSays};

use crate::checking::check;
use crate::lines::read_entry;
use crate::texts::Lines;
use faults::{Fault, Why};
use posting::limits::{PLACES, place};

// The part of a table that a posting reads.
type Places = [i32; PLACES];

// Writes what a line posts, if it is right.
fn write_line(places: &mut Places, line: &[u8])
    ensures { places.new ≡ table_after places.old (line_entry line.now) }
{
    if let Ok(entry) = read_entry(line)
        && let Some(at) = place(usize::from(entry.bus), usize::from(entry.column))
    {
        places[at] = entry.number;
    }
}

// Writes what the lines of a text post, one after the other.
fn write_lines(places: &mut Places, text: &[u8])
    ensures { places.new ≡ table_from places.old (lines text.now) }
{
    for line in Lines::of(text) {
        write_line(places, line);
    }
}

// Writes the number of each bus and column as the direct posting reads it, and leaves later entries. A refusal writes nothing.
pub fn fill(table: &mut [i32], text: &[u8]) -> Result<(), Fault>
    ensures granted { MatchResult result (λ _. (n : ℕ) × (granting text.now table.old ≡ Ok n)) (λ f. granting text.now table.old ≡ Err f) }
    ensures says { FillSays text.now table.old result }
    ensures kept { is_err result ≡ true → table.new ≡ table.old }
    ensures filled { OnOk result (Filled text.now table.old table.new) }
{
    let places = table.first_chunk_mut().ok_or(Fault {
        why: Why::Short,
        line: 0,
        field: 0,
    })?;
    check(text)?;
    places.fill(0);
    write_lines(places, text);
    Ok(())
}
