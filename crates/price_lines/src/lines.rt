// The lines of the hubs and of the load zones, by number.
ghost use Rattle.std.specs.Prelude.{◌≡◌, ◌≤◌, []};
ghost use Rattle.std.specs.List.{flat_map};
ghost use Rattle.hour.specs.Hour.{entries};
ghost use Rattle.page.specs.Pages.{written};
ghost use Rattle.price_lines.specs.Lines.{line, hub_line, zone_line, hubs, zones_to, zone_text};
ghost use Rattle.price_lines.specs.Adding.{Adds, AddsPriced};

use crate::points::has_bus;
use hour::book::Book;
use page::pages::Page;
use pricing::markets::{Market, point_price};
use weighting::hubs::Hub;
use weighting::points::{Kind, Point};

// By number.
const HUBS: [Hub; 6] = [
    Hub::North,
    Hub::South,
    Hub::Houston,
    Hub::West,
    Hub::Panhandle,
    Hub::Average,
];

// The lines that are written so far.
#[derive(Drop)]
pub struct Lines<const N: usize> {
    pub page: Page<N>,
}

impl<const N: usize> Lines<N> {
    pub fn none() -> Lines<N>
        ensures { written result.page ≡ [] }
    {
        Lines {
            page: Page::blank(),
        }
    }

    // The line of a point, with what the pricing call answers for it.
    fn push_priced<M: Market>(&mut self, market: &M, point: Point)
        ensures { AddsPriced (M.Market.price market.now) point self.old.page self.new.page }
    {
        self.push_line(point, point_price(market, point));
    }

    // The line of a hub.
    fn push_hub<M: Market>(&mut self, market: &M, hub: Hub)
        ensures { Adds 1 (hub_line (M.Market.price market.now) hub) self.old.page self.new.page }
    {
        let point = Point {
            kind: Kind::Hub,
            number: i64::from(hub),
        };
        self.push_priced(market, point);
    }

    // The lines of all hubs.
    pub fn push_hubs<M: Market>(&mut self, market: &M)
        ensures { Adds 6 (flat_map (hub_line (M.Market.price market.now)) hubs) self.old.page self.new.page }
    {
        for hub in HUBS {
            self.push_hub(market, hub);
        }
    }

    // The line of a zone, where it has a bus.
    fn push_zone<M: Market>(&mut self, book: &Book, market: &M, zone: u8)
        requires { (1 ≤ zone) × (zone ≤ 16) }
        ensures { Adds 1 (zone_text (M.Market.price market.now) (entries book.now) zone) self.old.page self.new.page }
    {
        if has_bus(book, zone) {
            let point = Point {
                kind: Kind::Zone,
                number: i64::from(zone),
            };
            self.push_priced(market, point);
        }
    }

    // The lines of all zones that have a bus. Zones are numbers only, with no list to go through.
    pub fn push_zones<M: Market>(&mut self, book: &Book, market: &M)
        ensures { Adds 16 (flat_map (zone_line (M.Market.price market.now)) (zones_to (entries book.now) 16)) self.old.page self.new.page }
    {
        for zone in 1..=16u8 {
            self.push_zone(book, market, zone);
        }
    }
}
