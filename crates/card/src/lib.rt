// Cards of tasks: frame length, boundaries and windows, and when a card is lawful.
#![tactic(auto)]

ghost use Rattle.std.specs.Prelude.{◌≡◌, ℕ, ◌+◌, ◌-◌, ◌*◌, ◌/◌, ◌≤◌, ◌&&◌, length, take, is_ok, MatchResult, slice_index_or, unwrap_or};
ghost use Rattle.refusal.specs.Table.{card_told, file_told, numbered, refusal};
ghost use Rattle.refusal.specs.declared.Layer.TheVariants.{File};
ghost use Rattle.card.specs.Cards.{tasks_of, nobody};
ghost use Rattle.card.specs.Lawful.{Exactly, Lawful};
ghost use Rattle.card.specs.Limits.{counted};
ghost use Rattle.card.specs.Times.{Times};
ghost use Rattle.card.specs.Verdicts.{fine, frame_of, judged_card, window_of};

use refusal::{CardFault, FileFault};

mod frame;
mod questions;
mod starts;
mod types;

use frame::frame_length;
use starts::intervals_of;
use table::padded;
pub use types::{Card, Intervals, Task};

pub const MAX_CORES: u8 = 16;

pub const MAX_TASKS: u8 = 32;

// The first `count` tasks, and none behind them.
// Kept: the count beside the table, as in Card::new.
#[tactic(auto, using(crate::proofs::Padding::padding_behind))]
fn first_tasks(count: u8, tasks: &[Task; 32]) -> [Task; 32]
    requires { count ≤ 32 }
    ensures front { take count result ≡ take count tasks.now }
    ensures behind { (i : ℕ) → count ≤ i → slice_index_or result i nobody ≡ nobody }
{
    padded(&tasks[..usize::from(count)], Task::default())
}

// The window of the job whose window holds the tick.
fn window_at(period: u32, tick: u32) -> (u32, u32)
    requires some { 1 ≤ period }
    requires period { period ≤ 1000000 }
    requires frame { tick ≤ 1000000 }
    ensures { result ≡ (tick / period * period, (tick / period + 1) * period) }
{
    let job = tick / period;
    (job * period, (job + 1) * period)
}

impl Card {
    // The first `count` tasks on this many cores.
    // Kept: a file tells the count, which may be any byte, and what has none is in a table of a fixed size.
    pub fn new(cores: u8, count: u8, tasks: &[Task; 32]) -> Result<Card, FileFault>
        ensures made { MatchResult result (λ card. (card.cores ≡ cores) × (card.count ≡ count) × (tasks_of card ≡ take count tasks.now)) (λ e. file_told e ≡ refusal File 2 0 0) }
        ensures when { is_ok result ≡ counted cores count }
    {
        if !(1..=MAX_CORES).contains(&cores) || !(1..=MAX_TASKS).contains(&count) {
            return Err(FileFault::Counts);
        }
        Ok(Card {
            cores,
            count,
            tasks: first_tasks(count, tasks),
        })
    }

    pub fn cores(&self) -> u8
        ensures { result ≡ self.now.cores }
    {
        self.cores
    }

    pub fn task_count(&self) -> u8
        ensures { result ≡ self.now.count }
    {
        self.count
    }

    pub fn tasks(&self) -> &[Task]
        ensures all { result.now ≡ tasks_of self.now }
        ensures len { length result.now ≡ self.now.count }
    {
        &self.tasks[..usize::from(self.count)]
    }

    // The task behind `i` others, or none.
    pub fn task(&self, i: usize) -> Task
        ensures { result ≡ slice_index_or (tasks_of self.now) i nobody }
    {
        self.tasks().get(i).copied().unwrap_or_default()
    }

    // The frame length and the boundaries of a lawful card, or its first fault.
    pub fn intervals(&self) -> Result<Intervals, CardFault>
        ensures judged { MatchResult result (λ v. (judged_card self.now ≡ fine) × (v.frame ≡ frame_of (tasks_of self.now)) × Times self.now v) (λ e. card_told e ≡ numbered (judged_card self.now)) }
        ensures lawful { Exactly (Lawful self.now) (is_ok result) }
    {
        let tasks = self.tasks();
        let frame = frame_length(tasks)?;
        intervals_of(frame, tasks)
    }

    // The same window, if there is one.
    fn window_in(&self, task: u8, interval: u8) -> Option<(u32, u32)>
        ensures { unwrap_or result (0, 0) ≡ window_of self.now task interval }
    {
        let v = self.intervals().ok()?;
        let task = self.tasks().get(usize::from(task).checked_sub(1)?)?;
        let start = v.begins(interval)?;
        Some(window_at(task.period, start))
    }

    // The window of a task in an interval, both counted from 1; 0 and 0 for an unlawful card, or a task or interval that it lacks.
    pub fn window(&self, task: u8, interval: u8) -> (u32, u32)
        ensures { result ≡ window_of self.now task interval }
    {
        self.window_in(task, interval).unwrap_or((0, 0))
    }
}
