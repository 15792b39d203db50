// The points that have a price line.
ghost use Rattle.std.specs.Prelude.{◌≡◌, ◌==◌};
ghost use Rattle.std.specs.List.{list_any};
ghost use Rattle.hour.specs.Hour.{entries};

use hour::book::Book;

// Whether some bus is placed in a zone, live or dead.
pub fn has_bus(book: &Book, zone: u8) -> bool
    ensures { result ≡ list_any (λ bus. bus.zone == zone) (entries book.now).buses }
{
    book.buses().any(|bus| bus.zone == zone)
}
