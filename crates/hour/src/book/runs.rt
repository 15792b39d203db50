// The calls that change the runs.
ghost use Rattle.std.specs.Prelude.{◌≡◌, ℕ, ◌<◌, ◌≤◌, true, slice_set};
ghost use Rattle.hour.specs.Sound.{when_some, run_sound, total_seconds, seconds_of};
ghost use Rattle.hour.specs.Hour.{entries, with_run};
ghost use Rattle.hour.specs.Steps.{Did, other_seconds, entered_run, run_entered, run_dropped};

use crate::book::Book;
use crate::limits::{LAST_RUN, MOST_ADDER, MOST_SECONDS};
use crate::records::Run;
use bounds::{up_to, within};
use refusals::Refusal;

impl Book {
    // Replaces one run; the others stay as they are. Beside its own limits it keeps the sum of the seconds, as no other table has to.
    fn replace_run(&mut self, i: usize, run: Option<Run>)
        requires place { i < 16 }
        requires sound { when_some run_sound run ≡ true }
        requires seconds { total_seconds (slice_set self.old.runs i run) ≤ 900 }
        ensures { entries self.new ≡ with_run (entries self.old) i run }
    {
        self.runs[i] = run;
    }

    // The seconds of all entered runs.
    pub fn total_seconds(&self) -> u16
        ensures { result ≡ total_seconds (entries self.now).runs }
    {
        self.runs.iter().map(|run| seconds_of(*run)).sum()
    }

    // The seconds of the entered runs other than run i.
    fn other_seconds(&self, i: usize) -> u16
        requires { i < 16 }
        ensures value { result ≡ other_seconds (entries self.now) i }
        ensures most { result ≤ 900 }
    {
        self.total_seconds() - seconds_of(self.runs[i])
    }

    // Enters or replaces a run.
    pub fn enter_run(
        &mut self,
        run: i64,
        seconds: i64,
        reserve_adder: i64,
        reliability_adder: i64,
    ) -> Result<(), Refusal>
        ensures { Did (run_entered (entries self.old) run seconds reserve_adder reliability_adder) (entries self.old) (entries self.new) result }
    {
        let i = usize::from(up_to(run, LAST_RUN, Refusal::RunOutside)?);
        if seconds < 1 {
            return Err(Refusal::SecondsOutside);
        }
        within(reserve_adder, MOST_ADDER, Refusal::AdderOutside)?;
        within(reliability_adder, MOST_ADDER, Refusal::AdderOutside)?;
        let left = MOST_SECONDS - self.other_seconds(i);
        let length = up_to(seconds, left, Refusal::SecondsOutside)?;
        self.replace_run(
            i,
            Some(Run {
                seconds: length,
                reserve_adder,
                reliability_adder,
            }),
        );
        Ok(())
    }

    // Removes a run.
    pub fn drop_run(&mut self, run: i64) -> Result<(), Refusal>
        ensures { Did (run_dropped (entries self.old) run) (entries self.old) (entries self.new) result }
    {
        let i = usize::from(up_to(run, LAST_RUN, Refusal::RunOutside)?);
        let _ = self.runs[i].ok_or(Refusal::NotEntered)?;
        self.replace_run(i, None);
        Ok(())
    }
}

// The seconds of a run; 0 where it is not entered.
fn seconds_of(run: Option<Run>) -> u16
    ensures { result ≡ seconds_of run }
{
    run.map_or(0, |run| run.seconds)
}
