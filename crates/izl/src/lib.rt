// IZL: incremental scheduling with zero laxity.
#![tactic(auto)]

ghost use Rattle.std.specs.Prelude.{◌≡◌, ◌≤◌, IfOk, MatchResult, OnOk};
ghost use Rattle.refusal.specs.Table.{local_told, refusal};
ghost use Rattle.refusal.specs.declared.Layer.TheVariants.{Local as LocalLayer};
ghost use Rattle.local.specs.Meaning.{Fit, Fresh, Loaded, Handed};
ghost use Rattle.izl_rule.specs.Meant.{new};
ghost use Rattle.izl.specs.Told.{told};
ghost use Rattle.izl.specs.Served.{Busy, Serves};

use local::{LocalScheduler, MAX_TASKS, Slice, fits};
use refusal::LocalFault;
use tables::Tables;

mod load;
mod queues;
mod slices;
mod state;
mod tables;

pub use state::Izl;

impl Izl {
    // Takes a load that fits.
    fn take_load(&mut self, width: u8, length: u32, shares: &[u32])
        requires { Fit width length shares.now }
        ensures loaded { Loaded told self.old width length shares.now self.new }
        ensures serves { Serves self.new length shares.now }
    {
        self.tables.begin(width, length, shares);
    }

    // Hands out the slice to come.
    fn hand_out(&mut self) -> Slice
        requires { 1 ≤ told.left self.old }
        ensures handed { Handed told self.old result self.new }
        ensures busy { Busy self.old result }
    {
        self.tables.step()
    }
}

impl LocalScheduler for Izl {
    const LETTER: char = 'I';

    ghost LETTER = { 73 };

    ghost meaning = { told };

    fn new() -> Self
        ensures fresh { Fresh told result }
        ensures is { result.state ≡ new }
    {
        Izl {
            tables: Tables::default(),
        }
    }

    fn load(&mut self, width: u8, length: u32, shares: &[u32]) -> Result<(), LocalFault>
        ensures loaded { MatchResult result (λ _. Loaded told self.old width length shares.now self.new) (λ e. (local_told e ≡ refusal LocalLayer 31 0 0) × (Fit width length shares.now → ⊥) × (self.new ≡ self.old)) }
        ensures serves { OnOk result (Serves self.new length shares.now) }
    {
        if !fits(width, length, shares) {
            return Err(LocalFault::Misfit);
        }
        self.take_load(width, length, shares);
        Ok(())
    }

    fn next(&mut self) -> Result<Slice, LocalFault>
        ensures handed { MatchResult result (λ z. Handed told self.old z self.new) (λ e. (local_told e ≡ refusal LocalLayer 32 0 0) × (told.left self.old ≡ 0) × (self.new ≡ self.old)) }
        ensures busy { IfOk result (λ z. Busy self.old z) }
    {
        if self.ticks_left() == 0 {
            return Err(LocalFault::Over);
        }
        Ok(self.hand_out())
    }

    fn ticks_left(&self) -> u32 {
        self.tables.left
    }

    fn amount(&self, task: u32) -> u32 {
        if (1..=MAX_TASKS as u32).contains(&task) {
            self.tables.amount_of(task)
        } else {
            0
        }
    }
}

#[cfg(test)]
mod tests {
    use super::*;
    use std::test::Fail;

    // The length of the next slice and the tasks on two cores.
    // Kept: wrap's test has the same; a test is of its own crate alone.
    fn next_of(izl: &mut Izl) -> Result<(u32, u8, u8), Fail> {
        let slice = izl.next()?;
        Ok((slice.length, slice.seats[0], slice.seats[1]))
    }

    // After a tick task 3 takes over core 2; task 2, put back, takes core 1, whose task has ended.
    #[test]
    fn three_tasks_on_two_cores(rt: HostRuntime) -> Result<(), Fail> {
        let mut izl = Izl::new();
        assert_eq!(rt; izl.load(2, 6, &[6, 6, 1]), Err(LocalFault::Misfit));
        izl.load(2, 6, &[1, 2, 5])?;
        assert_eq!(rt; next_of(&mut izl)?, (1, 1, 2));
        assert_eq!(rt; next_of(&mut izl)?, (1, 2, 3));
        assert_eq!(rt; izl.amount(3), 4);
        assert_eq!(rt; next_of(&mut izl)?, (4, 0, 3));
        assert_eq!(rt; izl.ticks_left(), 0);
        izl.load(2, 6, &[])?;
        assert_eq!(rt; next_of(&mut izl)?, (6, 0, 0));
        Ok(())
    }
}
