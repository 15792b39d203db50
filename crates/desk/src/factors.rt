// The table of posted numbers that a desk keeps: 32 columns of 256 buses, one after the other.
ghost use Rattle.std.specs.Prelude.{◌≡◌};
ghost use Rattle.desk.specs.Factors.{factored, table_after, answered};
ghost use Rattle.desk.specs.FactorLaws.{Reads};

use bounds::up_to;
use hour::limits::{LAST_BUS, LAST_CONSTRAINT};
use posting::limits::{PLACES, counted, place};
use refusals::Refusal;
use script::factors::Factor;

// Writes a number to its place. The bus is looked at first, then the column, then the number.
pub fn set_factor(factors: &mut [i32; PLACES], factor: Factor) -> Result<(), Refusal>
    ensures answer { result ≡ answered (factored factors.old factor) }
    ensures table { factors.new ≡ table_after (factored factors.old factor) factors.old }
    ensures reads { Reads factors.old factors.new factor result }
{
    let bus = up_to(factor.bus, LAST_BUS, Refusal::BusOutside)?;
    let column = up_to(factor.column, LAST_CONSTRAINT, Refusal::ConstraintOutside)?;
    let number = counted(factor.number).ok_or(Refusal::PostedOutside)?;
    // A bus and a column that are granted have a place.
    let place = place(usize::from(bus), usize::from(column)).unwrap();
    factors[place] = number;
    Ok(())
}
