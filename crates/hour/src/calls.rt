// The calls on an hour book, as values. Arguments are wide, so that any number a caller has is granted or refused.
use crate::records::Market;

#[derive(Clone, Copy, PartialEq, Eq, Debug)]
pub enum Call {
    Place {
        bus: i64,
        hub_bus: i64,
        zone: i64,
    },
    Status {
        bus: i64,
        market: Market,
        live: bool,
    },
    Load {
        bus: i64,
        market: Market,
        load: i64,
    },
    Lambda {
        lambda: i64,
    },
    Post {
        constraint: i64,
        shadow_price: i64,
    },
    Strike {
        constraint: i64,
    },
    Outage {
        constraint: i64,
        bus: i64,
        out: bool,
    },
    EnterRun {
        run: i64,
        seconds: i64,
        reserve_adder: i64,
        reliability_adder: i64,
    },
    DropRun {
        run: i64,
    },
}
