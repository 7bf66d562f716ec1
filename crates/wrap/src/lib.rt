// Wrap-round: the shares of an interval are laid end to end over its cores, and slices are cut where a share ends.
#![tactic(auto)]

ghost use Rattle.std.specs.Prelude.{◌≡◌, IfOk, MatchResult};
ghost use Rattle.refusal.specs.Table.{local_told, refusal};
ghost use Rattle.refusal.specs.declared.Layer.TheVariants.{Local as LocalLayer};
ghost use Rattle.local.specs.Meaning.{Handed};
ghost use Rattle.wrap.specs.Wrap.{Laid};
ghost use Rattle.wrap.specs.Told.{view, told};

use local::{LocalScheduler, MAX_TASKS, Slice, fits};
use refusal::LocalFault;

mod line;
mod state;
mod steps;

pub use state::Wrap;

impl LocalScheduler for Wrap {
    const LETTER: char = 'W';

    ghost LETTER = { 87 };

    ghost meaning = { told };

    fn new() -> Self {
        Wrap {
            width: 0,
            length: 0,
            left: 0,
            shares: [0; MAX_TASKS],
        }
    }

    fn load(&mut self, width: u8, length: u32, shares: &[u32]) -> Result<(), LocalFault> {
        if !fits(width, length, shares) {
            return Err(LocalFault::Misfit);
        }
        self.take(width, length, shares);
        Ok(())
    }

    fn next(&mut self) -> Result<Slice, LocalFault>
        ensures handed { MatchResult result (λ z. Handed told self.old z self.new) (λ e. (local_told e ≡ refusal LocalLayer 32 0 0) × (told.left self.old ≡ 0) × (self.new ≡ self.old)) }
        ensures laid { IfOk result (λ z. Laid (view self.old) z) }
    {
        if self.left == 0 {
            return Err(LocalFault::Over);
        }
        Ok(self.hand_out())
    }

    fn ticks_left(&self) -> u32 {
        self.left
    }

    fn amount(&self, task: u32) -> u32 {
        match usize::try_from(task) {
            Ok(task @ 1..=MAX_TASKS) => self.amount_of(task),
            _ => 0,
        }
    }
}

#[cfg(test)]
mod tests {
    use super::*;
    use std::test::Fail;

    // The next slice's length, and its first two seats.
    // Kept: izl's test has the same; a test is of its own crate alone.
    fn next_of(w: &mut Wrap) -> Result<(u32, u8, u8), Fail> {
        let slice = w.next()?;
        Ok((slice.length, slice.seats[0], slice.seats[1]))
    }

    // Task 3 is cut by the end of core 1, which has its first part, at the end; core 2 has the rest, from tick 0.
    #[test]
    fn three_tasks_on_two_cores(rt: HostRuntime) -> Result<(), Fail> {
        let mut w = Wrap::new();
        assert_eq!(rt; w.load(2, 6, &[6, 6, 1]), Err(LocalFault::Misfit));
        assert_eq!(rt; w.load(2, 6, &[7]), Err(LocalFault::Misfit));
        w.load(2, 6, &[6, 6])?;
        w.load(2, 6, &[1, 2, 5])?;
        assert_eq!(rt; next_of(&mut w)?, (1, 1, 3));
        assert_eq!(rt; next_of(&mut w)?, (1, 2, 3));
        assert_eq!(rt; w.amount(3), 3);
        assert_eq!(rt; next_of(&mut w)?, (1, 2, 0));
        assert_eq!(rt; next_of(&mut w)?, (3, 3, 0));
        assert_eq!(rt; w.ticks_left(), 0);
        w.load(2, 6, &[])?;
        assert_eq!(rt; next_of(&mut w)?, (6, 0, 0));
        Ok(())
    }
}
