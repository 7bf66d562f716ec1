ghost use Rattle.std.specs.Prelude.{◌≡◌};
ghost use Rattle.card.specs.Cards.{boundaries, tasks_of};
ghost use Rattle.card.specs.Times.{starts_of};
ghost use Rattle.card.specs.Verdicts.{frame_of};
ghost use Rattle.sheet.specs.Verdicts.{judged};

use crate::types::Sheet;
use card::{Card, Intervals};

// A card and a sheet that were accepted, with the card's intervals.
#[derive(Drop)]
pub(crate) struct Plan {
    pub(crate) card: Card,
    pub(crate) sheet: Sheet,
    pub(crate) intervals: Intervals,
    ghost accepted: { (judged card sheet).0 ≡ 0 },
    ghost frame: { intervals.frame ≡ frame_of (tasks_of card) },
    ghost starts: { starts_of intervals ≡ boundaries card intervals.frame },
}

// An accepted placement: empty, or filled by acceptance.
#[derive(Drop)]
pub struct Placement {
    pub(crate) plan: Option<Plan>,
}
