// The dispatcher: it hands out the slices of an accepted placement, frame by frame, and accounts for them.
#![tactic(auto)]

ghost use Rattle.std.specs.Prelude.{◌≡◌, ℕ, ◌+◌, ◌-◌, ◌<◌, ◌≤◌, true, false, List, is_ok, IfOk, MatchResult, ◌==◌};
ghost use Rattle.card.specs.Cards.{span, tasks_of};
ghost use Rattle.card.specs.Lawful.{Exactly, Lawful};
ghost use Rattle.card.specs.Verdicts.{fine, frame_of, judged_card};
ghost use Rattle.dispatch.specs.Counts.{stamp_of};
ghost use Rattle.dispatch.specs.Moves.{Advanced};
ghost use Rattle.dispatch.specs.declared.place.Place.TheVariants.{Before, In};
ghost use Rattle.dispatch.specs.Promise.{Promise, Promised};
ghost use Rattle.dispatch.specs.Runs.Call.{next_slice, account, tally};
ghost use Rattle.dispatch.specs.Runs.{Begun, Call, Does, Out, Run, where_next};
ghost use Rattle.local.specs.Meaning.{Handed, Loaded};
ghost use Rattle.sheet.specs.Held.{held, row_at_in, rows_in, start_in, Holds};
ghost use Rattle.refusal.specs.Table.{numbered, sheet_told};
ghost use Rattle.sheet.specs.Sheets.{row};
ghost use Rattle.sheet.specs.Timetables.{Agrees};
ghost use Rattle.sheet.specs.Verdicts.{judged};
ghost use Rattle.dispatch.specs.Launched.{Launched};

use crate::accounts::{blank, opened};
use crate::books::Books;
use crate::place::Place;
use card::Card;
use local::{LocalScheduler, Slice};
use refusal::{DispatchFault, SheetFault};
use sheet::{Placement, Sheet};

mod accounts;
mod books;
mod place;
mod state;

pub use state::Dispatcher;

// A slice with the millisecond at which it begins.
#[derive(Clone, Copy)]
pub struct Stamped {
    pub stamp: u64,
    pub slice: Slice,
}

// The stamp of a tick of a frame.
fn stamp(frame: u32, length: u32, tick: u32) -> u64
    ensures { result ≡ stamp_of length frame tick }
{
    u64::from(frame) * u64::from(length) + u64::from(tick)
}

// The shares of an interval.
fn row_of(placement: &Placement, interval: u8) -> &[u32]
    ensures { result.now ≡ row_at_in (held placement.now) interval }
{
    placement.row(usize::from(interval))
}

// The length of an interval.
// Kept: as sheet has it of a judgement, but of a placement, which may be empty.
fn length_of(placement: &Placement, interval: u8) -> u32
    ensures { result ≡ start_in (held placement.now) (interval + 1) - start_in (held placement.now) interval }
{
    let k = usize::from(interval);
    placement.start(k + 1).saturating_sub(placement.start(k))
}

// Loads the shares of an interval.
fn load_interval<S: LocalScheduler>(scheduler: &mut S, placement: &Placement, interval: u8)
    requires { interval < rows_in (held placement.now) }
    ensures { (card : Card) (sheet : Sheet) → Holds placement.now card sheet → Loaded S.meaning scheduler.old card.cores (span card (frame_of (tasks_of card)) interval) (row sheet interval) scheduler.new }
{
    let length = length_of(placement, interval);
    scheduler
        .load(placement.cores(), length, row_of(placement, interval))
        .unwrap();
}

// Takes the scheduler's choice.
fn take_choice<S: LocalScheduler>(scheduler: &mut S) -> Slice
    requires { 1 ≤ S.meaning.left scheduler.old }
    ensures { Handed S.meaning scheduler.old result scheduler.new }
{
    scheduler.next().unwrap()
}

impl<S: LocalScheduler> Dispatcher<S> {
    // A run from the frame `first` on, over a scheduler new or used.
    pub fn start(placement: Placement, scheduler: S, first: u32) -> Dispatcher<S>
        ensures begun { Begun placement scheduler first result }
        ensures promise { (calls : List Call) (d : Dispatcher S) → Run S.meaning result calls d → Promised S.meaning placement scheduler first calls }
    {
        let books = blank(opened(&placement));
        Dispatcher::at(placement, scheduler, first, books)
    }

    // Before the first slice of a frame.
    fn at(placement: Placement, scheduler: S, frame: u32, books: Books) -> Dispatcher<S>
        ensures placement { result.placement ≡ placement }
        ensures scheduler { result.scheduler ≡ scheduler }
        ensures place { result.place ≡ Before frame }
        ensures books { result.books ≡ books }
    {
        Dispatcher {
            placement,
            scheduler,
            place: Place::Before(frame),
            books,
        }
    }

    // Acceptance and start in one call.
    // Kept: the promises of acceptance stand again, since a caller of this call reads them here.
    // Never inlined: built into its callers, the whole dispatcher is moved about in them.
    #[inline(never)]
    pub fn launch(
        card: &Card,
        sheet: &Sheet,
        scheduler: S,
        first: u32,
    ) -> Result<Dispatcher<S>, SheetFault>
    where
        S: Drop,
        ensures agrees { Lawful card.now → Agrees card.now sheet.now (is_ok result) }
        ensures lawful { Exactly (Lawful card.now) ((judged_card card.now).0 == 0) }
        ensures judged { MatchResult result (λ d. (judged card.now sheet.now ≡ fine) × Holds d.placement card.now sheet.now) (λ e. sheet_told e ≡ numbered (judged card.now sheet.now)) }
        ensures promise { IfOk result (λ d. (calls : List Call) (e : Dispatcher S) → Run S.meaning d calls e → Promise S.meaning card.now sheet.now scheduler first calls) }
        ensures launched { Launched S.meaning card.now sheet.now scheduler first result }
    {
        let mut placement = Placement::new();
        placement.accept(card, sheet)?;
        Ok(Dispatcher::start(placement, scheduler, first))
    }

    // Goes to the next slice, loads its interval where it begins one, and tells frame and interval and whether it does.
    fn advance(&mut self) -> Result<(u32, u8, bool), DispatchFault>
        requires { 1 ≤ rows_in (held self.old.placement) }
        ensures { (card : Card) (sheet : Sheet) → Holds self.old.placement card sheet → Advanced S.meaning card sheet (frame_of (tasks_of card)) self.old result self.new (where_next S.meaning sheet.rows self.old) }
    {
        if let Place::In(frame, interval) = self.place {
            if self.scheduler.ticks_left() > 0 {
                return Ok((frame, interval, false));
            }
        }
        let Some((frame, interval)) = self.place.next(self.placement.interval_count()) else {
            return Err(DispatchFault::LastFrame);
        };
        load_interval(&mut self.scheduler, &self.placement, interval);
        self.place = Place::In(frame, interval);
        Ok((frame, interval, true))
    }

    // Kept: frame and interval are told by advance, since out of `place` they would come by an arm that is never reached.
    // Hands out the scheduler's choice in an interval, stamps it and enters it in the books.
    fn hand_out(&mut self, frame: u32, interval: u8, first: bool) -> Stamped
        requires place { self.old.place ≡ In frame interval }
        requires left { 1 ≤ S.meaning.left self.old.scheduler }
        ensures { (card : Card) (sheet : Sheet) → Holds self.old.placement card sheet → Out S.meaning card (frame_of (tasks_of card)) frame interval first self.old.scheduler result self.old self.new }
    {
        let end = self.placement.start(usize::from(interval) + 1);
        let tick = end.saturating_sub(self.scheduler.ticks_left());
        let slice = take_choice(&mut self.scheduler);
        self.books.enter(&self.placement, first, tick, &slice);
        Stamped {
            stamp: stamp(frame, self.placement.frame(), tick),
            slice,
        }
    }

    // The next slice, with its stamp.
    pub fn next_slice(&mut self) -> Result<Stamped, DispatchFault>
        ensures { Does S.meaning self.old (next_slice result) self.new }
    {
        if self.placement.is_empty() {
            return Err(DispatchFault::Empty);
        }
        let (frame, interval, first) = self.advance()?;
        Ok(self.hand_out(frame, interval, first))
    }

    // Ticks given and still owed to the job of a task, by its number from 1, whose window holds the last slice.
    pub fn account(&self, task: u32) -> Result<(u32, u32), DispatchFault>
        ensures { Does S.meaning self.now (account task result) self.now }
    {
        if !(1..=u32::from(self.placement.task_count())).contains(&task) {
            return Err(DispatchFault::NoTask);
        }
        let account = self.books.accounts[(task - 1) as usize];
        Ok((account.given, account.owed))
    }

    // Slices handed out, switches and busy ticks since the start.
    pub fn tally(&self) -> (u64, u64, u64)
        ensures { Does S.meaning self.now (tally result) self.now }
    {
        (self.books.slices, self.books.switches, self.books.busy)
    }
}
