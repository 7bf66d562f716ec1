// All that the program `frame` prints for the bytes of a plan: frame 0 under each scheduler, or the refusal.
#![tactic(auto)]

ghost use Rattle.std.specs.Prelude.{◌≡◌, take, IfOk, string_bytes, MatchResult};
ghost use Rattle.card.specs.Verdicts.{fine};
ghost use Rattle.frames.specs.Frames.{Told};
ghost use Rattle.output.specs.Printed.{Block, BothBlocks, LineOf, NoBlocks, PlanBlocks, Printed};
ghost use Rattle.refusal.specs.Table.{sheet_told};
ghost use Rattle.sheet.specs.Verdicts.{judged};

use blocks::block;
use card::Card;
use frames::{FrameFault, frame_of};
use izl::Izl;
use local::LocalScheduler;
use refusal::Refusal;
use sheet::Sheet;
use startup::plan_of;
use std::alloc::{AllocError, Global};
use text::RefusedLine;
use wrap::Wrap;

// One byte more than the longest file has: a longer one is judged by so many.
pub const MOST: usize = 16_908;

#[tactic(auto, using(std::proofs::lemmas::List::take_min))]
fn first_bytes(bytes: &[u8]) -> &[u8]
    ensures { result.now ≡ take 16908 bytes.now }
{
    &bytes[..MOST.min(bytes.len())]
}

// The block of frame 0 of a plan under a new scheduler.
pub fn new_block<S: LocalScheduler + Drop>(
    heap: Global,
    card: &Card,
    sheet: &Sheet,
) -> Result<String, FrameFault>
    ensures { MatchResult result (λ t. Block S.meaning S.LETTER card.now sheet.now (string_bytes t)) (λ e. Told card.now sheet.now e) }
{
    let frame = frame_of(heap, card, sheet, S::new(), 0)?;
    Ok(block::<S>(heap, card, sheet, &frame)?)
}

// The block by IZL, with the letter I, and behind it the one by wrap-round, with the letter W.
fn both_blocks(heap: Global, card: &Card, sheet: &Sheet) -> Result<String, FrameFault>
    ensures { MatchResult result (λ t. BothBlocks card.now sheet.now (string_bytes t)) (λ e. Told card.now sheet.now e) }
{
    let mut text = new_block::<Izl>(heap, card, sheet)?;
    let second = new_block::<Wrap>(heap, card, sheet)?;
    text.push_str(second.as_str())?;
    Ok(text)
}

// The plan's blocks, or why there are none.
fn plan_text(heap: Global, bytes: &[u8]) -> Result<String, FrameFault>
    ensures { MatchResult result (λ t. PlanBlocks bytes.now (string_bytes t)) (λ e. NoBlocks bytes.now e) }
{
    let (card, sheet) = plan_of(bytes)?;
    both_blocks(heap, &card, &sheet)
}

// The line of a refusal, where there is memory.
fn fault_text(heap: Global, fault: FrameFault) -> Result<String, AllocError>
    ensures { IfOk result (λ t. LineOf fault (string_bytes t)) }
{
    match fault {
        FrameFault::Refused(fault) => RefusedLine(Refusal::from(fault)).to_string(heap),
        FrameFault::Memory(error) => Err(error),
    }
}

// All that is printed for these bytes.
pub fn frame_text(heap: Global, bytes: &[u8]) -> Result<String, AllocError>
    ensures { IfOk result (λ t. Printed (take 16908 bytes.now) (string_bytes t)) }
{
    plan_text(heap, first_bytes(bytes)).or_else(|fault| fault_text(heap, fault))
}
