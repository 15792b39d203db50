// The lines of a book, added to a draft in their order.
ghost use Rattle.std.specs.Prelude.{◌≡◌, ◌≤◌, [], length};
ghost use Rattle.std.specs.Slice.Iter.{iter_rest};
ghost use Rattle.hour.specs.Hour.{entries};
ghost use Rattle.page.specs.Pages.{written};
ghost use Rattle.saved_rows.specs.Rows.{indexed, lambda_rows, all_rows};
ghost use Rattle.saved.specs.Texts.{saved_text};
ghost use Rattle.saving.specs.Growing.{Grows};

use crate::drafts::Draft;
use crate::drafts::entries::Entry;
use hour::book::Book;
use saved_rows::row::Row;
use std::slice;

impl Draft {
    // All lines of a book. The last one counts those before it.
    pub fn push_book(&mut self, book: &Book)
        requires { self.old.lines ≡ 0 }
        ensures lines { Grows (all_rows (entries book.now)) self.old self.new }
        ensures text { written self.old.page ≡ [] → written self.new.page ≡ saved_text (entries book.now) }
    {
        self.push_table(book.buses());
        self.push_lambda(book.lambda());
        self.push_table(book.constraints());
        self.push_table(book.runs());
        let count = i64::from(self.lines);
        self.push_row(Row::End { count });
    }

    #[tactic(auto, using(crate::proofs::Growing::grow_none))]
    fn push_lambda(&mut self, lambda: Option<i64>)
        ensures { Grows (lambda_rows lambda) self.old self.new }
    {
        if let Some(lambda) = lambda {
            self.push_row(Row::Lambda { lambda });
        }
    }

    // The lines of a table, entry by entry.
    fn push_table<T: Entry>(&mut self, table: slice::Iter<'_, T>)
        requires { length (iter_rest table) ≤ 256 }
        ensures { Grows (indexed T.Entry.rows 0 (iter_rest table.entry)) self.old self.new }
    {
        for (k, entry) in (0..=255u8).zip(table) {
            entry.push(k, self);
        }
    }
}
