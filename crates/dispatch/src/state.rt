ghost use Rattle.std.specs.Prelude.{◌≡◌, true};
ghost use Rattle.sheet.specs.Held.{held};
ghost use Rattle.dispatch.specs.Places.{ranged};

use crate::books::Books;
use crate::place::Place;
use sheet::Placement;

// An accepted placement that is handed out slice by slice.
#[derive(Drop)]
pub struct Dispatcher<S> {
    pub(crate) placement: Placement,
    pub(crate) scheduler: S,
    pub(crate) place: Place,
    pub(crate) books: Books,
    ghost in_range: { ranged (held placement) place ≡ true },
}
