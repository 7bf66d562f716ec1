ghost use Rattle.std.specs.Prelude.{◌≡◌, length};
ghost use Rattle.sheet.specs.Held.{card_in, cores_in, count_in, empty_in, frame_in, held, row_at_in, rows_in, shares_at_in, sheet_in, start_in, task_in, tasks_in};

use crate::placement::Placement;
use crate::types::Sheet;
use card::{Card, Task};

// What a placement holds. Tasks and intervals count from 0; an empty one has none of either.
impl Placement {
    pub fn is_empty(&self) -> bool
        ensures { result ≡ empty_in (held self.now) }
    {
        self.plan.is_none()
    }

    pub fn card(&self) -> Option<Card>
        ensures { result ≡ card_in (held self.now) }
    {
        self.plan.as_ref().map(|plan| plan.card)
    }

    pub fn sheet(&self) -> Option<Sheet>
        ensures { result ≡ sheet_in (held self.now) }
    {
        self.plan.as_ref().map(|plan| plan.sheet)
    }

    pub fn cores(&self) -> u8
        ensures { result ≡ cores_in (held self.now) }
    {
        self.plan.as_ref().map_or(0, |plan| plan.card.cores())
    }

    pub fn task_count(&self) -> u8
        ensures { result ≡ count_in (held self.now) }
    {
        self.plan.as_ref().map_or(0, |plan| plan.card.task_count())
    }

    // The tasks of the card; none of an empty placement.
    pub fn tasks(&self) -> &[Task]
        ensures { result.now ≡ tasks_in (held self.now) }
    {
        self.plan.as_ref().map_or(&[], |plan| plan.card.tasks())
    }

    pub fn task(&self, i: usize) -> Task
        ensures { result ≡ task_in (held self.now) i }
    {
        self.plan
            .as_ref()
            .map(|plan| plan.card.task(i))
            .unwrap_or_default()
    }

    pub fn frame(&self) -> u32
        ensures { result ≡ frame_in (held self.now) }
    {
        self.plan.as_ref().map_or(0, |plan| plan.intervals.frame())
    }

    pub fn interval_count(&self) -> u8
        ensures { result ≡ rows_in (held self.now) }
    {
        self.plan.as_ref().map_or(0, |plan| plan.sheet.rows())
    }

    // Where interval k begins; from the number of the intervals on, the frame's end.
    pub fn start(&self, k: usize) -> u32
        ensures { result ≡ start_in (held self.now) k }
    {
        self.plan.as_ref().map_or(0, |plan| plan.intervals.start(k))
    }

    // The shares of interval k; none past the last.
    pub fn row(&self, k: usize) -> &[u32]
        ensures part { result.now ≡ row_at_in (held self.now) k }
        ensures size { length result.now ≡ shares_at_in (held self.now) k }
    {
        self.plan.as_ref().map_or(&[], |plan| plan.sheet.row(k))
    }
}
