// Judges a worked plan of three tasks on two cores and hands out its frame 0, then the same with one share more.
#![tactic(auto)]

use card::{Card, Intervals, Task};
use dispatch::{Dispatcher, Stamped};
use izl::Izl;
use local::LocalScheduler;
use refusal::{FileFault, Refusal};
use sheet::{Placement, Sheet};
use std::io;
use table::padded;
use text::{HeadLine, RefusedLine, SliceLine, SumLine};
use wrap::Wrap;

const CORES: u8 = 2;

const TASKS: [Task; 3] = [
    Task {
        period: 6,
        run_time: 4,
    },
    Task {
        period: 9,
        run_time: 6,
    },
    Task {
        period: 18,
        run_time: 12,
    },
];

const LATER_ROWS: [u32; 9] = [2, 2, 2, 2, 2, 2, 4, 4, 4];

// No frame takes more slices: 128 intervals, each with 32 shares and so at most 33 slices.
const MAX_SLICES: u32 = 128 * 33;

fn worked_card() -> Result<Card, FileFault> {
    Card::new(CORES, 3, &padded(&TASKS, Task::default()))
}

// The sheet with this first row.
fn worked_sheet(first: [u32; 3]) -> Result<Sheet, FileFault> {
    let mut shares = [0; 4096];
    shares[..3].copy_from_slice(&first);
    shares[3..12].copy_from_slice(&LATER_ROWS);
    Sheet::new(4, 3, &shares)
}

// The plan with this first row, and its card's intervals.
fn worked_plan(first: [u32; 3]) -> Result<(Card, Intervals, Sheet), Refusal> {
    let card = worked_card()?;
    Ok((card, card.intervals()?, worked_sheet(first)?))
}

// The runs of an accepted plan from its frame 0 on, one under each scheduler.
fn launched(card: &Card, sheet: &Sheet) -> Result<(Dispatcher<Izl>, Dispatcher<Wrap>), Refusal> {
    Placement::new().accept(card, sheet)?;
    let izl = Dispatcher::launch(card, sheet, Izl::new(), 0)?;
    let wrap = Dispatcher::launch(card, sheet, Wrap::new(), 0)?;
    Ok((izl, wrap))
}

fn print_card(rt: &HostRuntime, card: &Card) -> io::Result<()> {
    print!(rt; "cores {}, tasks", card.cores())?;
    for task in card.tasks() {
        print!(rt; " ({}, {})", task.period, task.run_time)?;
    }
    println!(rt)
}

fn print_boundaries(rt: &HostRuntime, intervals: &Intervals) -> io::Result<()> {
    print!(rt; "frame {}, boundaries", intervals.frame())?;
    for start in intervals.starts() {
        print!(rt; " {start}")?;
    }
    println!(rt)
}

// Kept: blocks makes these lines too, but as one text of a whole frame; here accounts are printed between them.
fn print_head(rt: &HostRuntime, letter: char, card: &Card, sheet: &Sheet) -> io::Result<()> {
    let head = HeadLine {
        letter,
        cores: card.cores(),
        tasks: card.task_count(),
        intervals: sheet.rows(),
    };
    print!(rt; "{head}")
}

fn print_slice(rt: &HostRuntime, card: &Card, stamped: &Stamped) -> io::Result<()> {
    let line = SliceLine {
        stamp: stamped.stamp,
        length: stamped.slice.length,
        cores: card.cores(),
        seats: stamped.slice.seats,
    };
    print!(rt; "{line}")
}

// Ticks given and still owed to the current job of each task.
fn print_accounts<S: LocalScheduler>(
    rt: &HostRuntime,
    card: &Card,
    run: &Dispatcher<S>,
) -> io::Result<()> {
    print!(rt; "accounts")?;
    for task in 1..=u32::from(card.task_count()) {
        if let Ok((given, owed)) = run.account(task) {
            print!(rt; " {given}+{owed}")?;
        }
    }
    println!(rt)
}

// Frame 0 slice by slice, with the accounts at each boundary, and the tally.
fn print_frame<S: LocalScheduler>(
    rt: &HostRuntime,
    card: &Card,
    intervals: &Intervals,
    run: &mut Dispatcher<S>,
) -> io::Result<()> {
    let frame = u64::from(intervals.frame());
    for _ in 0..MAX_SLICES {
        let Ok(stamped) = run.next_slice() else {
            break;
        };
        print_slice(rt, card, &stamped)?;
        let end = stamped
            .stamp
            .saturating_add(u64::from(stamped.slice.length));
        if end >= frame || intervals.starts().iter().any(|s| u64::from(*s) == end) {
            print_accounts(rt, card, run)?;
        }
        if end >= frame {
            break;
        }
    }
    let (slices, switches, busy) = run.tally();
    let sum = SumLine {
        slices,
        switches,
        busy,
    };
    print!(rt; "{sum}")
}

// Frame 0 of a sheet under one scheduler.
fn print_plan<S: LocalScheduler>(
    rt: &HostRuntime,
    card: &Card,
    intervals: &Intervals,
    sheet: &Sheet,
    run: &mut Dispatcher<S>,
) -> io::Result<()> {
    print_head(rt, S::LETTER, card, sheet)?;
    print_frame(rt, card, intervals, run)
}

fn print_refusal(rt: &HostRuntime, refusal: Refusal) -> io::Result<()> {
    print!(rt; "{}", RefusedLine(refusal))
}

// The verdict on a sheet, and where it is accepted its frame 0 under each scheduler.
fn print_verdict(
    rt: &HostRuntime,
    card: &Card,
    intervals: &Intervals,
    sheet: &Sheet,
) -> io::Result<()> {
    match launched(card, sheet) {
        Ok((mut by_izl, mut by_wrap)) => {
            println!(rt; "accepted")?;
            print_plan(rt, card, intervals, sheet, &mut by_izl)?;
            print_plan(rt, card, intervals, sheet, &mut by_wrap)
        }
        Err(refusal) => print_refusal(rt, refusal),
    }
}

// The plan with this first row.
fn print_worked(rt: &HostRuntime, first: [u32; 3]) -> io::Result<()> {
    match worked_plan(first) {
        Ok((card, intervals, sheet)) => {
            print_card(rt, &card)?;
            print_boundaries(rt, &intervals)?;
            print_verdict(rt, &card, &intervals, &sheet)
        }
        Err(refusal) => print_refusal(rt, refusal),
    }
}

fn main(rt: HostRuntime) -> io::Result<()> {
    print_worked(&rt, [4, 4, 4])?;
    print_worked(&rt, [4, 4, 5])
}
