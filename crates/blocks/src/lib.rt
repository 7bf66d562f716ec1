// A frame under one scheduler as text: a head line, a line for each slice, and their sum.
#![tactic(auto)]

ghost use Rattle.std.specs.Prelude.{◌≡◌, ◌≤◌, take, IfOk, string_bytes};
ghost use Rattle.blocks.specs.Blocks.{block_text, line_text};
ghost use Rattle.text.specs.Lines.{slice_text};

use card::Card;
use dispatch::Stamped;
use frames::Frame;
use local::LocalScheduler;
use sheet::Sheet;
use std::alloc::{AllocError, Global};
use text::{HeadLine, SliceLine, SumLine};

fn head_line<S: LocalScheduler>(card: &Card, sheet: &Sheet) -> HeadLine
    ensures { result ≡ record { letter = S.LETTER; cores = card.now.cores; tasks = card.now.count; intervals = sheet.now.rows } }
{
    HeadLine {
        letter: S::LETTER,
        cores: card.cores(),
        tasks: card.task_count(),
        intervals: sheet.rows(),
    }
}

fn slice_line(cores: u8, stamped: &Stamped) -> SliceLine
    requires { cores ≤ 16 }
    ensures { slice_text result.stamp result.length (take result.cores result.seats) ≡ line_text cores stamped.now }
{
    SliceLine {
        stamp: stamped.stamp,
        length: stamped.slice.length,
        cores,
        seats: stamped.slice.seats,
    }
}

fn sum_line(tally: (u64, u64, u64)) -> SumLine
    ensures { result ≡ record { slices = tally.0; switches = tally.1; busy = tally.2 } }
{
    let (slices, switches, busy) = tally;
    SumLine {
        slices,
        switches,
        busy,
    }
}

// The block of a frame.
pub fn block<S: LocalScheduler>(
    heap: Global,
    card: &Card,
    sheet: &Sheet,
    frame: &Frame,
) -> Result<String, AllocError>
    ensures { IfOk result (λ t. string_bytes t ≡ block_text S.LETTER card.now sheet.now frame.now.slices.items frame.now.tally) }
{
    let mut text = head_line::<S>(card, sheet).to_string(heap)?;
    for stamped in &frame.slices {
        write!(text, "{}", slice_line(card.cores(), stamped))?;
    }
    write!(text, "{}", sum_line(frame.tally))?;
    Ok(text)
}
