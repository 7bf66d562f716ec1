// From the bytes of a plan file to a running dispatcher.
#![tactic(auto)]

ghost use Rattle.std.specs.Prelude.{◌≡◌, Err, MatchResult, ◌≢◌};
ghost use Rattle.card.specs.Verdicts.{fine};
ghost use Rattle.dispatch.specs.Launched.{Launched};
ghost use Rattle.plan.specs.File.{judged_file};
ghost use Rattle.refusal.specs.Table.{card_told, numbered};
ghost use Rattle.startup.specs.Startup.{LaunchedFile, NoPlan, PlanIn};

use card::Card;
use dispatch::Dispatcher;
use local::LocalScheduler;
use plan::open;
use refusal::{CardFault, SheetFault};
use sheet::Sheet;

// The plan of a file; a fault of the file stands for one of its card.
fn card_and_sheet(bytes: &[u8]) -> Result<(Card, Sheet), CardFault>
    ensures { MatchResult result (λ p. PlanIn bytes.now p.0 p.1) (λ e. (judged_file bytes.now ≢ fine) × (card_told e ≡ numbered (judged_file bytes.now))) }
{
    let reader = open(bytes)?;
    Ok(reader.read()?)
}

// The card and the sheet that a file holds, or the first check that it fails.
pub fn plan_of(bytes: &[u8]) -> Result<(Card, Sheet), SheetFault>
    ensures { MatchResult result (λ p. PlanIn bytes.now p.0 p.1) (λ e. NoPlan bytes.now e) }
{
    Ok(card_and_sheet(bytes)?)
}

// Launches what was read of a file; a refusal is carried up as it is.
// Kept: with `?` and the launch in launch_file itself, the proof did not close without an answer of its own.
fn launched<S: LocalScheduler + Drop>(
    plan: Result<(Card, Sheet), SheetFault>,
    scheduler: S,
    first: u32,
) -> Result<Dispatcher<S>, SheetFault>
    ensures { MatchResult plan (λ p. Launched S.meaning p.0 p.1 scheduler first result) (λ e. result ≡ Err e) }
{
    let (card, sheet) = plan?;
    Dispatcher::launch(&card, &sheet, scheduler, first)
}

// A dispatcher that runs the plan of a file from the frame `first` on. A refusal of the file comes before the card's, and that before
// the sheet's.
pub fn launch_file<S: LocalScheduler + Drop>(
    bytes: &[u8],
    scheduler: S,
    first: u32,
) -> Result<Dispatcher<S>, SheetFault>
    ensures { LaunchedFile S.meaning bytes.now scheduler first result }
{
    launched(plan_of(bytes), scheduler, first)
}
