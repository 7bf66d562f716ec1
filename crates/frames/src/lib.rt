// One frame of a plan as values: its slices and its tally.
#![tactic(auto)]

ghost use Rattle.std.specs.Prelude.{◌≡◌, MatchResult, alloc_error};
ghost use Rattle.card.specs.Verdicts.{fine};
ghost use Rattle.frames.specs.Frames.{FrameOf, HasFrame, Told};
ghost use Rattle.frames.specs.declared.FrameFault.TheVariants.{Memory, Refused as RefusedFault};
ghost use Rattle.refusal.specs.Table.{numbered, sheet_told};
ghost use Rattle.sheet.specs.Verdicts.{judged};

use card::Card;
use dispatch::{Dispatcher, Stamped};
use local::LocalScheduler;
use refusal::{CardFault, SheetFault};
use sheet::Sheet;
use std::alloc::{AllocError, AllocFailed, Global};

// The slices of a frame, in order, and what they come to: slices, switches and busy ticks.
#[derive(Drop)]
pub struct Frame {
    pub slices: Vec<Stamped>,
    pub tally: (u64, u64, u64),
}

// Why there is no frame: the plan is refused, or there is no memory for its slices.
#[derive(Clone, Copy, PartialEq, Eq, Debug)]
pub enum FrameFault {
    Refused(SheetFault),
    Memory(AllocError),
}

impl From<SheetFault> for FrameFault {
    ghost from_gives = { λ e r. r ≡ RefusedFault e };

    fn from(fault: SheetFault) -> FrameFault {
        FrameFault::Refused(fault)
    }
}

impl From<AllocError> for FrameFault {
    ghost from_gives = { λ e r. r ≡ Memory e };

    fn from(error: AllocError) -> FrameFault {
        FrameFault::Memory(error)
    }
}

impl<T: Drop> From<AllocFailed<T>> for FrameFault {
    ghost from_gives = { λ _ r. r ≡ Memory alloc_error };

    fn from(failed: AllocFailed<T>) -> FrameFault {
        FrameFault::from(AllocError::from(failed))
    }
}

// The card's frame length, or its fault, which is that of every plan on it.
fn frame_length(card: &Card) -> Result<u64, SheetFault>
    ensures { MatchResult result (λ h. HasFrame card.now h) (λ e. ((sheet : Sheet) → sheet_told e ≡ numbered (judged card.now sheet))) }
{
    let intervals = card.intervals()?;
    Ok(u64::from(intervals.frame()))
}

// The frame with this number.
// Kept: card and sheet apart, here and above: a pair of them would be made at each call and taken apart in it.
pub fn frame_of<S: LocalScheduler + Drop>(
    heap: Global,
    card: &Card,
    sheet: &Sheet,
    scheduler: S,
    number: u32,
) -> Result<Frame, FrameFault>
    ensures { MatchResult result (λ f. FrameOf S.meaning card.now sheet.now scheduler number f.slices.items f.tally) (λ e. Told card.now sheet.now e) }
{
    let length = frame_length(card)?;
    let mut run = Dispatcher::launch(card, sheet, scheduler, number)?;
    let mut slices = Vec::new(heap);
    let mut done = 0;
    while done < length {
        let stamped = run.next_slice().unwrap();
        done += u64::from(stamped.slice.length);
        slices.push(stamped)?;
    }
    Ok(Frame {
        tally: run.tally(),
        slices,
    })
}
