// The limits of an hour's numbers.

pub const LAST_BUS: u16 = 255;

pub const LAST_HUB_BUS: u16 = 155;

pub const LAST_ZONE: u16 = 16;
// tenths of a megawatt
pub const MOST_LOAD: u16 = 10_000;

pub const LAST_CONSTRAINT: u16 = 31;
// cents, either way from 0
pub const MOST_SHADOW_PRICE: u64 = 1_000_000;
// fine units, a million to the cent, either way from 0
pub const MOST_LAMBDA: u64 = 100_000_000_000_000;

pub const LAST_RUN: u16 = 15;
// cents, either way from 0
pub const MOST_ADDER: u64 = 1_000_000;
// the seconds of all runs together
pub const MOST_SECONDS: u16 = 900;
// the buses of one hub bus, live or dead
pub const MOST_BUSES: usize = 8;
