// Lines of saved text, added to a draft.
ghost use Rattle.std.specs.Prelude.{◌≡◌, ◌+◌, ◌^◌, ◌<◌, [], ◌∷◌};
ghost use Rattle.page.specs.Pages.{written};
ghost use Rattle.saving.specs.Adding.{Adds, numbers_text};
ghost use Rattle.saving.specs.Growing.{Grows};

use crate::drafts::Draft;
use page::pages::Page;
use saved_rows::row::Row;

impl Draft {
    // Nothing is written.
    pub fn empty() -> Draft
        ensures text { written result.page ≡ [] }
        ensures count { result.lines ≡ 0 }
    {
        Draft {
            page: Page::blank(),
            lines: 0,
        }
    }

    // A line of a letter and numbers. Bytes and no `write!`: that says what it wrote only where it answers `Ok`, and a page promises it
    // always.
    fn push_numbers(&mut self, letter: u8, numbers: &[i64])
        ensures text { Adds (numbers_text letter numbers.now) self.old.page self.new.page }
        ensures count { self.old.lines + 1 < 2 ^ 32 → self.new.lines ≡ self.old.lines + 1 }
    {
        self.page.push(letter);
        for z in numbers {
            self.page.push(b',');
            self.page.push_number(*z);
        }
        self.page.push(b'\n');
        self.lines = self.lines.saturating_add(1);
    }

    // A line, with its line end.
    pub fn push_row(&mut self, row: Row)
        ensures { Grows (row ∷ []) self.old self.new }
    {
        match row {
            Row::Bus(bus) => self.push_numbers(
                b'B',
                &[
                    bus.bus,
                    bus.hub_bus,
                    bus.zone,
                    i64::from(bus.day_ahead_live),
                    bus.day_ahead_load,
                    i64::from(bus.real_time_live),
                    bus.real_time_load,
                ],
            ),
            Row::Lambda { lambda } => self.push_numbers(b'L', &[lambda]),
            Row::Constraint {
                constraint,
                shadow_price,
            } => self.push_numbers(b'C', &[constraint, shadow_price]),
            Row::Outage { constraint, bus } => self.push_numbers(b'O', &[constraint, bus]),
            Row::Run {
                run,
                seconds,
                reserve_adder,
                reliability_adder,
            } => self.push_numbers(b'R', &[run, seconds, reserve_adder, reliability_adder]),
            Row::End { count } => self.push_numbers(b'Z', &[count]),
        }
    }
}
