ghost use Rattle.std.specs.Prelude.{◌≡◌, ℕ, is_ok, MatchResult, ◌==◌};
ghost use Rattle.card.specs.Cards.{Frame};
ghost use Rattle.card.specs.Lawful.{Exactly, Lawful};
ghost use Rattle.card.specs.Verdicts.{fine, judged_card};
ghost use Rattle.refusal.specs.Table.{numbered, sheet_told};
ghost use Rattle.sheet.specs.Held.{Empty, Holds, planned};
ghost use Rattle.sheet.specs.Tellings.{Answered};
ghost use Rattle.sheet.specs.Timetables.{Agrees};
ghost use Rattle.sheet.specs.Verdicts.{judged, Meets};

use crate::judge::judge;
use crate::placement::{Placement, Plan};
use crate::types::Sheet;
use card::Card;
use refusal::SheetFault;

// A plan of a lawful card and a sheet that has a timetable for it.
fn plan_for(card: &Card, sheet: &Sheet) -> Result<Plan, SheetFault>
    ensures answered { Answered card.now sheet.now (is_ok result) }
    ensures judged { MatchResult result (λ plan. (planned plan ≡ (card.now, sheet.now)) × (judged card.now sheet.now ≡ fine)) (λ e. sheet_told e ≡ numbered (judged card.now sheet.now)) }
{
    let intervals = card.intervals()?;
    judge(card, &intervals, sheet)?;
    Ok(Plan {
        card: *card,
        sheet: *sheet,
        intervals,
    })
}

impl Placement {
    // An empty placement.
    pub fn new() -> Placement
        ensures { Empty result }
    {
        Placement { plan: None }
    }

    // Kept: what an answer agrees with is told clause by clause, since each is a promise.
    // Holds a lawful card and a sheet that has a timetable for it from now on, or is left as it is.
    pub fn accept(&mut self, card: &Card, sheet: &Sheet) -> Result<(), SheetFault>
        ensures agrees { Lawful card.now → Agrees card.now sheet.now (is_ok result) }
        ensures equations { Lawful card.now → (h : ℕ) → Frame card.now h → Exactly (Meets card.now h sheet.now) (is_ok result) }
        ensures lawful { Exactly (Lawful card.now) ((judged_card card.now).0 == 0) }
        ensures judged { MatchResult result (λ _. Holds self.new card.now sheet.now × (judged card.now sheet.now ≡ fine)) (λ e. (sheet_told e ≡ numbered (judged card.now sheet.now)) × (self.new ≡ self.old)) }
    {
        self.plan = Some(plan_for(card, sheet)?);
        Ok(())
    }
}
