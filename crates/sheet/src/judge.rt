ghost use Rattle.std.specs.Prelude.{◌≡◌, ℕ, ◌+◌, ◌-◌, ◌*◌, ◌<◌, ◌≤◌, ◌&&◌, length, if◌then◌else◌, sum, MatchResult, ◌==◌, nat_eq, nat_le, nat_lt};
ghost use Rattle.card.specs.Cards.{period_of};
ghost use Rattle.card.specs.Times.{Times, start_of};
ghost use Rattle.card.specs.Verdicts.{fine};
ghost use Rattle.refusal.specs.Table.{numbered, sheet_told};
ghost use Rattle.sheet.specs.Tellings.{Tells};
ghost use Rattle.sheet.specs.Verdicts.{interval_by, job_by, jobs_by, part_by, rows_by, tasks_by, total_by, judged_shares, judged_sheet};

use crate::types::Sheet;
use card::{Card, Intervals, Task};
use refusal::SheetFault;
use std::ops::Range;

// A share is longer than its interval.
fn too_wide(share: u32, len: u32) -> bool
    ensures { result ≡ nat_lt len share }
{
    share > len
}

// The shares of an interval come to more than its cores have.
fn overfull(total: u64, cores: u8, len: u32) -> bool
    ensures { result ≡ nat_lt (cores * len) total }
{
    total > u64::from(cores) * u64::from(len)
}

// The shares in a job's window come to its run time.
fn is_whole(total: u64, run_time: u32) -> bool
    ensures { result ≡ nat_eq total run_time }
{
    total == u64::from(run_time)
}

// An interval begins in a window.
fn begins_in(start: u32, window: &Range<u64>) -> bool
    ensures { result ≡ (nat_le window.now.start start && nat_lt start window.now.end) }
{
    window.contains(&u64::from(start))
}

// What the shares of an interval come to, each compared before it is added.
fn row_total(interval: u8, len: u32, shares: &[u32]) -> Result<u64, SheetFault>
    requires { length shares.now ≤ 32 }
    ensures { MatchResult result (λ total. (judged_shares len interval 1 shares.now ≡ fine) × (total ≡ sum shares.now)) (λ e. sheet_told e ≡ numbered (judged_shares len interval 1 shares.now)) }
{
    let mut total: u64 = 0;
    for (i, share) in shares.iter().enumerate() {
        if too_wide(*share, len) {
            return Err(SheetFault::WideShare(interval, i as u8 + 1));
        }
        total += u64::from(*share);
    }
    Ok(total)
}

// A sheet with a row for each interval of a card and a share for each of its tasks.
#[derive(Clone, Copy)]
struct Judgement<'a> {
    card: &'a Card,
    intervals: &'a Intervals,
    sheet: &'a Sheet,
    ghost tasks: { sheet.now.count ≡ card.now.count },
    ghost periods: { (i : ℕ) → i < card.now.count → 1 ≤ period_of card.now i },
    ghost rising: { (k : ℕ) → k < sheet.now.rows → start_of intervals.now k ≤ start_of intervals.now (k + 1) },
}

// Intervals, tasks and jobs count from 0.
impl Judgement<'_> {
    // How long interval k is.
    fn span(&self, k: u8) -> u32
        requires { k < self.now.sheet.now.rows }
        ensures { result ≡ start_of self.now.intervals.now (k + 1) - start_of self.now.intervals.now k }
    {
        let k = usize::from(k);
        self.intervals.start(k + 1) - self.intervals.start(k)
    }

    // The row of interval k.
    fn row(&self, k: u8) -> Result<(), SheetFault>
        requires { k < self.now.sheet.now.rows }
        ensures { Tells result (interval_by (start_of self.now.intervals.now) self.now.sheet.now self.now.card.now.cores k) }
    {
        let len = self.span(k);
        let total = row_total(k + 1, len, self.sheet.row(usize::from(k)))?;
        if overfull(total, self.card.cores(), len) {
            return Err(SheetFault::Overfull(k + 1));
        }
        Ok(())
    }

    #[tactic(auto, using(crate::proofs::Turns::turns))]
    fn rows(&self) -> Result<(), SheetFault>
        ensures { Tells result (rows_by (start_of self.now.intervals.now) self.now.sheet.now self.now.card.now.cores) }
    {
        // Kept: a refusal tells the interval's number, which gives its length and its row too.
        for k in 0..self.sheet.rows() {
            self.row(k)?;
        }
        Ok(())
    }

    // What task i has in interval k, if that begins in a window.
    fn part(&self, i: u8, window: &Range<u64>, k: u8) -> u32
        requires there { k < self.now.sheet.now.rows }
        requires task { i < self.now.sheet.now.count }
        ensures { result ≡ part_by (start_of self.now.intervals.now) self.now.sheet.now i window.now.start window.now.end k }
    {
        let k = usize::from(k);
        if begins_in(self.intervals.start(k), window) {
            self.sheet.share(k, usize::from(i))
        } else {
            0
        }
    }

    // What task i has in all intervals that begin in a window.
    fn total(&self, i: u8, window: &Range<u64>) -> u64
        requires { i < self.now.sheet.now.count }
        ensures { result ≡ total_by (start_of self.now.intervals.now) self.now.sheet.now i window.now.start window.now.end }
    {
        (0..self.sheet.rows())
            .map(|k| u64::from(self.part(i, window, k)))
            .sum()
    }

    // A job of task i.
    fn job(&self, i: u8, task: Task, job: u32) -> Result<(), SheetFault>
        requires there { i < self.now.sheet.now.count }
        requires few { job < 4294967295 }
        ensures { Tells result (job_by (start_of self.now.intervals.now) self.now.sheet.now i task job) }
    {
        let period = u64::from(task.period);
        let opens = u64::from(job) * period;
        let total = self.total(i, &(opens..opens + period));
        if is_whole(total, task.run_time) {
            Ok(())
        } else {
            Err(SheetFault::WrongTotal(i + 1, job + 1))
        }
    }

    // The jobs of task i in a frame.
    #[tactic(auto, using(crate::proofs::Turns::turns))]
    fn jobs(&self, i: u8, task: Task) -> Result<(), SheetFault>
        requires there { i < self.now.sheet.now.count }
        requires period { 1 ≤ task.period }
        ensures { Tells result (jobs_by (start_of self.now.intervals.now) self.now.sheet.now self.now.intervals.now.frame i task) }
    {
        for job in 0..self.intervals.frame() / task.period {
            self.job(i, task, job)?;
        }
        Ok(())
    }

    #[tactic(auto, using(crate::proofs::Turns::turns))]
    fn tasks(&self) -> Result<(), SheetFault>
        ensures { Tells result (tasks_by (start_of self.now.intervals.now) self.now.sheet.now self.now.intervals.now.frame self.now.card.now) }
    {
        for (i, task) in self.card.tasks().iter().enumerate() {
            self.jobs(i as u8, *task)?;
        }
        Ok(())
    }
}

// The sheet has a row for each interval, and a share for each task.
fn same_counts(card: &Card, intervals: &Intervals, sheet: &Sheet) -> bool
    ensures { result ≡ (sheet.now.rows == intervals.now.count && sheet.now.count == card.now.count) }
{
    sheet.rows() == intervals.count() && sheet.count() == card.task_count()
}

// The counts, the rows, then the jobs: the first check that fails refuses the sheet.
#[tactic(auto, using(crate::proofs::Begun::begun))]
pub(crate) fn judge(card: &Card, intervals: &Intervals, sheet: &Sheet) -> Result<(), SheetFault>
    requires { Times card.now intervals.now }
    ensures { Tells result (judged_sheet card.now intervals.now.frame sheet.now) }
{
    if !same_counts(card, intervals, sheet) {
        return Err(SheetFault::Rows);
    }
    let judgement = Judgement {
        card,
        intervals,
        sheet,
    };
    judgement.rows()?;
    judgement.tasks()
}
