// Refusals of cards, sheets and loads, one line each, and the slices of some loads under each scheduler.
#![tactic(auto)]

use card::{Card, Intervals, Task};
use izl::Izl;
use local::LocalScheduler;
use refusal::{FileFault, Refusal};
use sheet::{Placement, Sheet};
use std::io;
use table::padded;
use wrap::Wrap;

// A load has at most one slice more than it has shares above zero.
const MAX_SLICES: u32 = 33;

fn task(period: u32, run_time: u32) -> Task {
    Task { period, run_time }
}

fn card_of(cores: u8, tasks: &[Task]) -> Result<Card, FileFault> {
    let count = tasks.len().min(32) as u8;
    Card::new(cores, count, &padded(tasks, Task::default()))
}

fn sheet_of(rows: u16, count: u8, shares: &[u32]) -> Result<Sheet, FileFault> {
    Sheet::new(rows, count, &padded(shares, 0))
}

fn intervals_of(cores: u8, tasks: &[Task]) -> Result<Intervals, Refusal> {
    Ok(card_of(cores, tasks)?.intervals()?)
}

// The verdict on the plan of three tasks on two cores with these rows.
fn verdict(rows: u16, shares: &[u32]) -> Result<(), Refusal> {
    let card = card_of(2, &[task(6, 4), task(9, 6), task(18, 12)])?;
    let sheet = sheet_of(rows, 3, shares)?;
    Ok(Placement::new().accept(&card, &sheet)?)
}

fn print_card(rt: &HostRuntime, cores: u8, tasks: &[Task]) -> io::Result<()> {
    match intervals_of(cores, tasks) {
        Ok(v) => println!(rt; "frame {} with {} intervals", v.frame(), v.count()),
        Err(refusal) => println!(rt; "{refusal}"),
    }
}

fn print_plan(rt: &HostRuntime, rows: u16, shares: &[u32]) -> io::Result<()> {
    match verdict(rows, shares) {
        Ok(()) => println!(rt; "accepted"),
        Err(refusal) => println!(rt; "{refusal}"),
    }
}

// The slices of a load: length and seats.
fn print_slices<S: LocalScheduler>(
    rt: &HostRuntime,
    scheduler: &mut S,
    width: u8,
) -> io::Result<()> {
    for _ in 0..MAX_SLICES {
        let Ok(slice) = scheduler.next() else {
            break;
        };
        print!(rt; "{}:", slice.length)?;
        for seat in slice.seats.iter().take(usize::from(width)) {
            print!(rt; " {seat}")?;
        }
        println!(rt)?;
    }
    Ok(())
}

fn print_load<S: LocalScheduler>(
    rt: &HostRuntime,
    scheduler: &mut S,
    width: u8,
    length: u32,
    shares: &[u32],
) -> io::Result<()> {
    // Kept: the one place where the refusal of a load is printed.
    match scheduler.load(width, length, shares) {
        Ok(()) => print_slices(rt, scheduler, width),
        Err(fault) => println!(rt; "{}", Refusal::from(fault)),
    }
}

fn print_cards(rt: &HostRuntime) -> io::Result<()> {
    print_card(rt, 0, &[task(1, 1)])?;
    print_card(rt, 17, &[task(1, 1)])?;
    print_card(rt, 1, &[])?;
    print_card(rt, 1, &[task(4, 1), task(4, 1)])?;
    print_card(rt, 1, &[task(1, 1), task(128, 1)])?;
    print_card(rt, 1, &[task(1, 1), task(129, 1)])?;
    print_card(rt, 1, &[task(1000, 1), task(1001, 1)])?;
    print_card(rt, 1, &[task(3, 1), task(0, 1)])?;
    print_card(rt, 1, &[task(1_000_001, 1)])?;
    print_card(rt, 1, &[task(3, 4)])
}

fn print_plans(rt: &HostRuntime) -> io::Result<()> {
    print_plan(rt, 4, &[4, 4, 4, 2, 2, 2, 2, 2, 2, 4, 4, 4])?;
    print_plan(rt, 4, &[4, 4, 5, 2, 2, 2, 2, 2, 2, 4, 4, 4])?;
    print_plan(rt, 4, &[4, 5, 3, 2, 2, 2, 2, 2, 2, 4, 4, 4])?;
    print_plan(rt, 4, &[4, 4, 4, 4, 2, 0, 2, 2, 2, 4, 4, 4])?;
    print_plan(rt, 4, &[7, 4, 1, 2, 2, 2, 2, 2, 2, 4, 4, 4])?;
    print_plan(rt, 3, &[4, 4, 4, 2, 2, 2, 2, 2, 2])?;
    print_plan(rt, 129, &[])
}

fn print_loads<S: LocalScheduler>(rt: &HostRuntime, scheduler: &mut S) -> io::Result<()> {
    print_load(rt, scheduler, 2, 6, &[1, 2, 5])?;
    print_load(rt, scheduler, 2, 6, &[6, 6])?;
    print_load(rt, scheduler, 2, 6, &[])?;
    print_load(rt, scheduler, 2, 6, &[6, 6, 1])?;
    print_load(rt, scheduler, 2, 6, &[7])
}

// Loads that tell IZL's rule from rules that are nearly it.
fn print_telling(rt: &HostRuntime, izl: &mut Izl) -> io::Result<()> {
    print_load(rt, izl, 1, 2, &[1, 1])?;
    print_load(rt, izl, 3, 3, &[1, 1, 3, 3])?;
    print_load(rt, izl, 2, 3, &[1, 1, 2, 1])?;
    print_load(rt, izl, 1, 2, &[1])?;
    print_load(rt, izl, 2, 2, &[1, 1, 1])?;
    print_load(rt, izl, 3, 3, &[1, 1, 1, 1, 2])
}

fn main(rt: HostRuntime) -> io::Result<()> {
    print_cards(&rt)?;
    print_plans(&rt)?;
    print_loads(&rt, &mut Wrap::new())?;
    let mut izl = Izl::new();
    print_loads(&rt, &mut izl)?;
    print_telling(&rt, &mut izl)
}
