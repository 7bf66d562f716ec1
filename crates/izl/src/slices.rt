// The slice to come, and what is left of a task.
ghost use Rattle.std.specs.Prelude.{◌≡◌, ◌<◌, ◌≤◌, if◌then◌else◌, nat_eq};
ghost use Rattle.std.specs.List.{AllByRecursion};
ghost use Rattle.izl_rule.specs.Rule.{seats, choice, after, amount};
ghost use Rattle.izl_rule.specs.Invariant.{Held, merged};
ghost use Rattle.izl.specs.View.{view, seated_over};

use crate::tables::Tables;
use izl_rule::{Running, Waiting};
use local::Slice;

// Seats the tasks of cores.
fn seat_all(seats: &mut [u8; 16], cores: &[Running])
    requires { AllByRecursion (λ r. r.core < 16) cores.now }
    ensures { seats.new ≡ seated_over seats.old cores.now }
{
    for core in cores.iter().rev() {
        seats[core.core as usize] = core.task;
    }
}

// What a task has of an amount that is left of some task.
fn part_of(task: u32, other: u8, amount: u32) -> u32
    ensures { result ≡ (if nat_eq task other then amount else 0) }
{
    if task == u32::from(other) { amount } else { 0 }
}

impl Tables {
    // The task on each core.
    fn seats(&self) -> [u8; 16]
        requires { Held (merged (view self.now)) }
        ensures { result ≡ seats (view self.now) }
    {
        let mut seats = [0; 16];
        seat_all(&mut seats, self.taken.as_slice());
        seat_all(&mut seats, self.running.as_slice());
        seats
    }

    // Hands out the slice to come, and goes on.
    pub(crate) fn step(&mut self) -> Slice
        requires { Held (merged (view self.old)) }
        ensures chosen { result ≡ choice (view self.old) }
        ensures does { view self.new ≡ after (view self.old) }
    {
        let slice = Slice::new(self.time(), self.seats());
        self.advance();
        self.settle();
        slice
    }

    // What is left of a task.
    pub(crate) fn amount_of(&self, task: u32) -> u32
        requires { amount (view self.now) task ≤ self.now.left }
        ensures { result ≡ amount (view self.now) task }
    {
        let on_core = |core: &Running| part_of(task, core.task, core.amount);
        let in_queue = |waiting: &Waiting| part_of(task, waiting.task, waiting.amount);
        let running: u32 = self.running.iter().map(on_core).sum();
        let waiting: u32 = self.waiting.iter().map(in_queue).sum();
        let taken: u32 = self.taken.iter().map(on_core).sum();
        running + waiting + taken
    }
}
