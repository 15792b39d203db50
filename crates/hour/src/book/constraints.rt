// The calls that change lambda and the constraints.
ghost use Rattle.std.specs.Prelude.{◌≡◌, ℕ, ◌<◌, true};
ghost use Rattle.hour.specs.Sound.{when_some, constraint_sound};
ghost use Rattle.hour.specs.Hour.{entries, with_constraint, out_of};
ghost use Rattle.hour.specs.Steps.{Did, lambda_set, posted, struck, outage_set};

use crate::book::Book;
use crate::book::buses::byte_up_to;
use crate::limits::{LAST_BUS, LAST_CONSTRAINT, MOST_LAMBDA, MOST_SHADOW_PRICE};
use crate::records::Constraint;
use bounds::{up_to, within};
use bus_set::{BusSet, marked};
use refusals::Refusal;

impl Book {
    // Sets lambda.
    pub fn set_lambda(&mut self, lambda: i64) -> Result<(), Refusal>
        ensures { Did (lambda_set (entries self.old) lambda) (entries self.old) (entries self.new) result }
    {
        within(lambda, MOST_LAMBDA, Refusal::LambdaOutside)?;
        self.lambda = Some(lambda);
        Ok(())
    }

    // Replaces one constraint; the others stay as they are. Each table has a call of its own, which keeps its own part of the invariant.
    fn replace_constraint(&mut self, i: usize, constraint: Option<Constraint>)
        requires place { i < 32 }
        requires sound { when_some constraint_sound constraint ≡ true }
        ensures { entries self.new ≡ with_constraint (entries self.old) i constraint }
    {
        self.constraints[i] = constraint;
    }

    // Sets the shadow price of a constraint, and keeps the outage marks of one that is posted already.
    pub fn post(&mut self, constraint: i64, shadow_price: i64) -> Result<(), Refusal>
        ensures { Did (posted (entries self.old) constraint shadow_price) (entries self.old) (entries self.new) result }
    {
        let i = usize::from(up_to(constraint, LAST_CONSTRAINT, Refusal::ConstraintOutside)?);
        within(shadow_price, MOST_SHADOW_PRICE, Refusal::ShadowPriceOutside)?;
        let out = out_of(self.constraints[i]);
        self.replace_constraint(i, Some(Constraint { shadow_price, out }));
        Ok(())
    }

    // Removes a constraint with all its outage marks.
    pub fn strike(&mut self, constraint: i64) -> Result<(), Refusal>
        ensures { Did (struck (entries self.old) constraint) (entries self.old) (entries self.new) result }
    {
        let i = usize::from(up_to(constraint, LAST_CONSTRAINT, Refusal::ConstraintOutside)?);
        let _ = self.constraints[i].ok_or(Refusal::NotPosted)?;
        self.replace_constraint(i, None);
        Ok(())
    }

    // Sets or clears the outage mark of a live or dead bus under a posted constraint.
    pub fn set_outage(&mut self, constraint: i64, bus: i64, out: bool) -> Result<(), Refusal>
        ensures { Did (outage_set (entries self.old) constraint bus out) (entries self.old) (entries self.new) result }
    {
        let i = usize::from(up_to(constraint, LAST_CONSTRAINT, Refusal::ConstraintOutside)?);
        let b = byte_up_to(bus, LAST_BUS, Refusal::BusOutside)?;
        let old = self.constraints[i].ok_or(Refusal::NotPosted)?;
        let marks = marked(old.out, b, out);
        self.replace_constraint(i, Some(Constraint { out: marks, ..old }));
        Ok(())
    }
}

// The buses out under a constraint; none where it is not posted.
pub fn out_of(constraint: Option<Constraint>) -> BusSet
    ensures { result ≡ out_of constraint }
{
    constraint.map_or(
        [0; 4],
        |posted| -> BusSet
            ensures { result ≡ posted.out }
        { posted.out },
    )
}
