// Sets of the 256 buses as four words of 64 bits, taken and answered by value: bit b % 64 of word b / 64 is bus b.
#![tactic(auto)]

ghost use Rattle.std.specs.Prelude.{◌≡◌, ℕ, ◌<◌, true, false, not, ◌&&◌, if◌then◌else◌, nat_eq};
ghost use Rattle.bus_set.specs.Sets.{member, marked, with_bit, SetOf, count_below, four_words};

pub type BusSet = [u64; 4];

// The set of no bus.
pub fn empty() -> BusSet
    ensures { SetOf (λ _. false) result }
{
    [0; 4]
}

// Whether the bus is in the set.
pub fn contains(set: BusSet, bus: u8) -> bool
    ensures { result ≡ member set bus }
{
    let i = usize::from(bus);
    (set[i / 64] >> (i % 64)) & 1 == 1
}

// The set with the bus in it or not, and every other bus as it was.
pub fn marked(set: BusSet, bus: u8, on: bool) -> BusSet
    ensures value { result ≡ marked set bus on }
    ensures law { SetOf (λ k. (if nat_eq k bus then on else member set k)) result }
    ensures words { four_words result ≡ true }
{
    let i = usize::from(bus);
    let mut new = set;
    new[i / 64] = with_bit(set[i / 64], bus % 64, on);
    new
}

// Below, four words are written as four: a `from_fn` needs clauses at its closure that are longer, and a `sum` no bound that the check finds.

// The buses that are in both sets.
pub fn both(a: BusSet, b: BusSet) -> BusSet
    ensures { SetOf (λ k. member a k && member b k) result }
{
    [a[0] & b[0], a[1] & b[1], a[2] & b[2], a[3] & b[3]]
}

// The buses of the first set that are not in the second.
pub fn without(a: BusSet, b: BusSet) -> BusSet
    ensures { SetOf (λ k. member a k && not (member b k)) result }
{
    [a[0] & !b[0], a[1] & !b[1], a[2] & !b[2], a[3] & !b[3]]
}

// How many buses are in the set.
pub fn count(set: BusSet) -> u32
    ensures { result ≡ count_below (member set) 256 }
{
    set[0].count_ones() + set[1].count_ones() + set[2].count_ones() + set[3].count_ones()
}

// The word with bit k set or cleared.
fn with_bit(word: u64, k: u8, on: bool) -> u64
    requires { k < 64 }
    ensures { result ≡ with_bit word k on }
{
    let bit = 1u64 << k;
    if on { word | bit } else { word & !bit }
}
