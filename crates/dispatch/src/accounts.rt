// How the books are opened, and how a slice is entered in them.
ghost use Rattle.std.specs.Prelude.{◌≡◌, ℕ, ◌+◌, ◌*◌, ◌%◌, ◌<◌, ◌≤◌, not, ◌&&◌, [], get_or, if◌then◌else◌, count_by, ◌==◌, nat_eq, slice_index_or, slice_set};
ghost use Rattle.std.specs.List.{zip};
ghost use Rattle.dispatch.specs.Counts.{changed, switches_core};
ghost use Rattle.dispatch.specs.Books.{nothing, paid, anew, tallied, Opened, paid_to, Entered};
ghost use Rattle.local.specs.Meaning.{seated};
ghost use Rattle.sheet.specs.Held.{held, count_in, task_in, Holds};
ghost use Rattle.sheet.specs.declared.types.Sheet.{Sheet};
ghost use Rattle.card.specs.declared.types.Card.{Card};

use crate::books::{Account, Books};
use card::Task;
use local::Slice;
use sheet::Placement;
use std::array;

// Nothing given of a run time.
fn owed(run_time: u32) -> Account
    ensures { result ≡ record { given = 0; owed = run_time } }
{
    Account {
        given: 0,
        owed: run_time,
    }
}

// The accounts at the start: nothing given, the run times owed.
pub(crate) fn opened(placement: &Placement) -> [Account; 32]
    ensures { Opened placement.now result }
{
    array::from_fn(|i| owed(placement.task(i).run_time))
}

// Books with no slice in them.
pub(crate) fn blank(accounts: [Account; 32]) -> Books
    ensures accounts { result.accounts ≡ accounts }
    ensures zero { (result.slices ≡ 0) × (result.switches ≡ 0) × (result.busy ≡ 0) }
{
    Books {
        accounts,
        slices: 0,
        switches: 0,
        busy: 0,
        seats: [0; 16],
    }
}

// Whether a slice that begins at `tick` begins an interval and a window of the task.
fn renews(first: bool, tick: u32, task: Task) -> bool
    requires { 1 ≤ task.period }
    ensures { result ≡ anew first tick task }
{
    first && tick % task.period == 0
}

// Whether a core is seated with a task that it did not have.
fn is_switch(before: u8, seat: u8) -> bool
    ensures { result ≡ (not (seat == 0) && not (seat == before)) }
{
    seat != 0 && seat != before
}

// How many cores switch, of those side by side.
// Summed, as in seats_of: ones and zeros are added up for all cores at once, where a filter and a count would go core by core.
fn switches(before: &[u8; 16], seats: &[u8; 16]) -> usize
    ensures { result ≡ count_by switches_core (zip before.now seats.now) }
{
    before
        .iter()
        .zip(seats)
        .map(|(before, seat)| usize::from(is_switch(*before, *seat)))
        .sum()
}

// The switches into a slice with these seats; where it begins an interval every seated core counts.
fn switches_to(seats: &[u8; 16], first: bool, before: &[u8; 16]) -> usize
    ensures { result ≡ changed (if first then [] else before.now) seats.now }
{
    if first {
        switches(&[0; 16], seats)
    } else {
        switches(before, seats)
    }
}

// How many cores are seated with a task.
fn seats_of(seats: &[u8; 16], task: u8) -> usize
    ensures count { result ≡ count_by (nat_eq task) seats.now }
    ensures few { result ≤ 16 }
{
    seats.iter().map(|seat| usize::from(*seat == task)).sum()
}

// The ticks that a slice gives to a task.
fn ticks_for(slice: &Slice, task: u8) -> u64
    ensures { result ≡ seated slice.now task * slice.now.length }
{
    seats_of(&slice.seats, task) as u64 * u64::from(slice.length)
}

impl Account {
    // What is left to give of a run time, after some ticks.
    fn after(run_time: u32, owed: u32, ticks: u64) -> Account
        ensures { result ≡ paid run_time owed ticks }
    {
        let owed = u64::from(owed).saturating_sub(ticks) as u32;
        Account {
            given: run_time.saturating_sub(owed),
            owed,
        }
    }
}

impl Books {
    // Pays one task; a job that begins is owed its whole run time first.
    fn pay(&mut self, i: usize, task: Task, begins: bool, ticks: u64)
        requires { i < 32 }
        ensures accounts { self.new.accounts ≡ slice_set self.old.accounts i (paid task.run_time (if begins then task.run_time else (get_or self.old.accounts i nothing).owed) ticks) }
        ensures slices { self.new.slices ≡ self.old.slices }
        ensures switches { self.new.switches ≡ self.old.switches }
        ensures busy { self.new.busy ≡ self.old.busy }
        ensures seats { self.new.seats ≡ self.old.seats }
    {
        let owed = if begins {
            task.run_time
        } else {
            self.accounts[i].owed
        };
        self.accounts[i] = Account::after(task.run_time, owed, ticks);
    }

    // Pays every task of the placement for a slice that begins at `tick` of the frame.
    fn pay_all(&mut self, placement: &Placement, first: bool, tick: u32, slice: &Slice)
        ensures accounts { (i : ℕ) → i < count_in (held placement.now) → slice_index_or self.new.accounts i nothing ≡ paid_to self.old first tick slice.now i (task_in (held placement.now) i) }
        ensures slices { self.new.slices ≡ self.old.slices }
        ensures switches { self.new.switches ≡ self.old.switches }
        ensures busy { self.new.busy ≡ self.old.busy }
        ensures seats { self.new.seats ≡ self.old.seats }
    {
        for (i, task) in placement.tasks().iter().enumerate() {
            let ticks = ticks_for(slice, i as u8 + 1);
            self.pay(i, *task, renews(first, tick, *task), ticks);
        }
    }

    // Enters a slice that begins at `tick` of the frame, and an interval where `first` says so.
    pub(crate) fn enter(&mut self, placement: &Placement, first: bool, tick: u32, slice: &Slice)
        ensures { (card : Card) (sheet : Sheet) → Holds placement.now card sheet → Entered card self.old first tick slice.now self.new }
    {
        self.pay_all(placement, first, tick, slice);
        let switches = switches_to(&slice.seats, first, &self.seats);
        self.slices = self.slices.saturating_add(1);
        self.switches = self.switches.saturating_add(switches as u64);
        self.busy = self
            .busy
            .saturating_add(u64::from(slice.length) * u64::from(slice.busy_cores()));
        self.seats = slice.seats;
    }
}
