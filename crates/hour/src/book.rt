// The hour book, with the invariant of its type.
ghost use Rattle.std.specs.Prelude.{◌≡◌, ℕ, ◌≤◌, true, length};
ghost use Rattle.hour.specs.Sound.{FewPerHubBus, all_by, when_some, bus_sound, lambda_sound, constraint_sound, run_sound, total_seconds};

use crate::records::{Bus, Constraint, Run};

mod buses;
mod constraints;
mod live;
mod reads;
pub mod replays;
mod runs;

// A book is opened fresh and worked through its calls only, so it is not `Clone`. It has no `Model`: definitions take the
// book with its invariant.
//
// No book exists in which a hub bus has more than eight buses, live or dead, in which the runs together
// pass 900 seconds, or in which a field is outside its limits.
#[derive(Drop)]
pub struct Book {
    buses: [Bus; 256],
    lambda: Option<i64>,
    constraints: [Option<Constraint>; 32],
    runs: [Option<Run>; 16],
    ghost size: { length buses ≡ 256 },
    ghost columns: { (length constraints ≡ 32) × (length runs ≡ 16) },
    ghost few: { FewPerHubBus buses },
    ghost sound: { all_by bus_sound buses ≡ true },
    ghost price: { when_some lambda_sound lambda ≡ true },
    ghost posted: { all_by (when_some constraint_sound) constraints ≡ true },
    ghost entered: { all_by (when_some run_sound) runs ≡ true },
    ghost seconds: { total_seconds runs ≤ 900 },
}
