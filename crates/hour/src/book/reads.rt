// What a book holds, read out as plain values. Each table has a read of its own, which carries its own part of the invariant.
ghost use Rattle.std.specs.Prelude.{◌≡◌, true, length};
ghost use Rattle.std.specs.Slice.Iter.{iter_rest};
ghost use Rattle.hour.specs.Sound.{all_by, bus_sound, when_some, constraint_sound, run_sound, lambda_sound};
ghost use Rattle.hour.specs.Hour.{entries, bus_at, constraint_at, run_at};

use crate::book::Book;
use crate::records::{Bus, Constraint, Run};
use std::slice;

impl Book {
    // The record of a bus.
    pub fn bus(&self, bus: u8) -> Bus
        ensures value { result ≡ bus_at (entries self.now) bus }
        ensures sound { bus_sound result ≡ true }
    {
        self.buses[usize::from(bus)]
    }

    // Lambda, in fine units, where it is set.
    pub fn lambda(&self) -> Option<i64>
        ensures value { result ≡ (entries self.now).lambda }
        ensures sound { when_some lambda_sound result ≡ true }
    {
        self.lambda
    }

    // A constraint, where it is posted; none past the last.
    pub fn constraint(&self, constraint: u8) -> Option<Constraint>
        ensures value { result ≡ constraint_at (entries self.now) constraint }
        ensures sound { when_some constraint_sound result ≡ true }
    {
        self.constraints
            .get(usize::from(constraint))
            .copied()
            .flatten()
    }

    // A run, where it is entered; none past the last.
    pub fn run(&self, run: u8) -> Option<Run>
        ensures value { result ≡ run_at (entries self.now) run }
        ensures sound { when_some run_sound result ≡ true }
    {
        self.runs.get(usize::from(run)).copied().flatten()
    }

    // The records of all buses, from bus 0 on.
    pub fn buses(&self) -> slice::Iter<'_, Bus>
        ensures value { iter_rest result ≡ (entries self.now).buses }
        ensures size { length (iter_rest result) ≡ 256 }
        ensures sound { all_by bus_sound (iter_rest result) ≡ true }
    {
        self.buses.iter()
    }

    // All constraints, from constraint 0 on, each where it is posted.
    pub fn constraints(&self) -> slice::Iter<'_, Option<Constraint>>
        ensures value { iter_rest result ≡ (entries self.now).constraints }
        ensures size { length (iter_rest result) ≡ 32 }
        ensures sound { all_by (when_some constraint_sound) (iter_rest result) ≡ true }
    {
        self.constraints.iter()
    }

    // All runs, from run 0 on, each where it is entered.
    pub fn runs(&self) -> slice::Iter<'_, Option<Run>>
        ensures value { iter_rest result ≡ (entries self.now).runs }
        ensures size { length (iter_rest result) ≡ 16 }
        ensures sound { all_by (when_some run_sound) (iter_rest result) ≡ true }
    {
        self.runs.iter()
    }
}
