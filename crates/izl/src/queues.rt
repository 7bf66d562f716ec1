// The core queue and the waiting queue, passage by passage.
ghost use Rattle.std.specs.Prelude.{◌≡◌, ◌+◌, ◌-◌, ◌<◌, ◌≤◌, [], ◌∷◌, ◌++◌, map, length, nat_eq, nat_le, slice_index_or};
ghost use Rattle.std.specs.List.{AllByRecursion};
ghost use Rattle.arrayvec.specs.ArrayVec.{array_vec_len};
ghost use Rattle.izl_rule.specs.Rule.{nobody, on, front, lowered, F, G, first_core, leaves, takes, refill, put_back, take_over, passed, passage, settled};
ghost use Rattle.izl_rule.specs.Invariant.{Held, merged};
ghost use Rattle.izl.specs.View.{view, passage_by, Amount, turned, Can, Passes};

use crate::tables::{Kind, Tables};
use arrayvec::ArrayVec;
use izl_rule::{Running, Waiting};
use local::MAX_TASKS;

// A core with a task from the waiting queue.
fn seat(core: u8, waiting: Waiting) -> Running
    ensures { result ≡ on core waiting }
{
    Running {
        core,
        amount: waiting.amount,
        task: waiting.task,
    }
}

// How long the next passage takes and what happens at its end, by the amounts on the first core and of the last waiting task.
fn passage_by(first: Option<u32>, last: Option<u32>, left: u32) -> (u32, Kind)
    ensures { result ≡ passage_by first last left }
{
    match (first, last) {
        (Some(first), Some(last)) => {
            let due = left.saturating_sub(last);
            if first >= due {
                (due, Kind::TakeOver)
            } else {
                (first, Kind::Refill)
            }
        }
        (Some(first), None) => (first, Kind::Leave),
        (None, _) => (left, Kind::Rest),
    }
}

// Whether a core's task has ended, so that it is not put back.
fn has_ended(last: Running) -> bool
    ensures { result ≡ nat_eq last.amount 0 }
{
    last.amount == 0
}

// The task of a core goes to the head of the waiting queue, unless it has ended.
// Kept: no From, since a Waiting is made of a Running here alone, and loses its core.
fn put_back(queue: &mut ArrayVec<Waiting, MAX_TASKS>, last: Running)
    requires { array_vec_len queue.old < 32 }
    ensures { queue.new.items ≡ put_back last queue.old.items }
{
    if !has_ended(last) {
        queue.insert(
            0,
            Waiting {
                amount: last.amount,
                task: last.task,
            },
        );
    }
}

// The last of a queue leaves it.
fn leave_last<T: Default + Drop, const N: usize>(queue: &mut ArrayVec<T, N>) -> T
    requires { 1 ≤ array_vec_len queue.old }
    ensures last { result ≡ slice_index_or queue.old.items (length queue.old.items - 1) result }
    ensures others { queue.new.items ≡ front queue.old.items }
    ensures room { array_vec_len queue.new < N }
{
    // Kept: by `pop` a proof would not know that there is room for one more then.
    queue.remove(queue.len() - 1)
}

// One joins the end of a core queue.
fn join(queue: &mut ArrayVec<Running, 16>, core: Running)
    requires { array_vec_len queue.old < 16 }
    ensures { queue.new.items ≡ queue.old.items ++ (core ∷ []) }
{
    queue.push(core);
}

// Time passes for cores.
fn lower(cores: &mut [Running], ticks: u32)
    requires { AllByRecursion (λ r. ticks ≤ r.amount) cores.old }
    ensures { cores.new ≡ map (lowered ticks) cores.old }
{
    for core in cores.iter_mut() {
        core.amount -= ticks;
    }
}

// Kept: that the state is held stands in the contracts of whole passages, since a part of one breaks it, so that it is no ghost field.
impl Tables {
    // The amount on the first core of the core queue.
    fn first_amount(&self) -> Option<u32>
        ensures { Amount result (view self.now).running (F (view self.now)) }
    {
        self.running.first().map(|core| core.amount)
    }

    // The amount of the last waiting task.
    fn last_amount(&self) -> Option<u32>
        ensures { Amount result (view self.now).waiting (G (view self.now)) }
    {
        self.waiting.last().map(|waiting| waiting.amount)
    }

    // How long the next passage takes, and what happens at its end.
    fn coming(&self) -> (u32, Kind)
        requires { Held (merged (view self.now)) }
        ensures { Passes (view self.now) result }
    {
        passage_by(self.first_amount(), self.last_amount(), self.left)
    }

    // The time of the next passage.
    pub(crate) fn time(&self) -> u32
        requires { Held (merged (view self.now)) }
        ensures { result ≡ (passage (view self.now)).0 }
    {
        self.coming().0
    }

    // Time passes.
    fn pass(&mut self, ticks: u32)
        requires left { ticks ≤ self.old.left }
        requires running { AllByRecursion (λ r. ticks ≤ r.amount) (view self.old).running }
        requires taken { AllByRecursion (λ r. ticks ≤ r.amount) (view self.old).taken }
        ensures { view self.new ≡ passed ticks (view self.old) }
    {
        self.left -= ticks;
        lower(self.running.as_mut_slice(), ticks);
        lower(self.taken.as_mut_slice(), ticks);
    }

    // The first core leaves the core queue.
    fn leave(&mut self) -> Running
        requires { 1 ≤ length (view self.old).running }
        ensures first { result ≡ first_core (view self.old) }
        ensures does { view self.new ≡ leaves (view self.old) }
    {
        self.running.remove(0)
    }

    // A core takes the first waiting task and joins the end of the core queue.
    pub(crate) fn take_first(&mut self, core: u8)
        requires { length (view self.old).running < 16 }
        ensures does { view self.new ≡ takes core (view self.old) }
        ensures fits { length (view self.new).running ≤ length (view self.old).running + 1 }
    {
        if let Some(waiting) = self.waiting.pop_at(0) {
            join(&mut self.running, seat(core, waiting));
        }
    }

    // The first core takes the first waiting task and goes to the end of the core queue.
    fn refill(&mut self)
        requires runs { 1 ≤ length (view self.old).running }
        requires fits { length (view self.old).running ≤ 16 }
        ensures { view self.new ≡ refill (view self.old) }
    {
        let first = self.leave();
        self.take_first(first.core);
    }

    // The last core leaves the core queue, its task is put back, and the last waiting task takes that core.
    fn take_over(&mut self)
        requires runs { 1 ≤ length (view self.old).running }
        requires waits { 1 ≤ length (view self.old).waiting }
        requires room { length (view self.old).taken < 16 }
        ensures { view self.new ≡ take_over (view self.old) }
    {
        let last = leave_last(&mut self.running);
        let urgent = leave_last(&mut self.waiting);
        put_back(&mut self.waiting, last);
        join(&mut self.taken, seat(last.core, urgent));
    }

    // What happens at the end of a passage.
    fn turn(&mut self, kind: Kind)
        requires { Can kind (view self.old) }
        ensures { view self.new ≡ turned kind (view self.old) }
    {
        match kind {
            Kind::TakeOver => self.take_over(),
            Kind::Refill => self.refill(),
            Kind::Leave => {
                self.leave();
            }
            Kind::Rest => {}
        }
    }

    // One passage.
    pub(crate) fn advance(&mut self)
        requires { Held (merged (view self.old)) }
        ensures { view self.new ≡ (passage (view self.old)).1 }
    {
        let (ticks, kind) = self.coming();
        self.pass(ticks);
        self.turn(kind);
    }

    // Passages of no time, until one takes time: each leaves fewer tasks in the queues.
    pub(crate) fn settle(&mut self)
        requires { Held (merged (view self.old)) }
        ensures { view self.new ≡ settled (view self.old) }
    {
        for _ in 0..self.running.len() + self.waiting.len() {
            if self.time() != 0 {
                break;
            }
            self.advance();
        }
    }
}
