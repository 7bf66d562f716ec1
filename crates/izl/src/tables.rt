use arrayvec::ArrayVec;
use izl_rule::{Running, Waiting};
use local::MAX_TASKS;

// What IZL holds.
#[derive(Default, Drop)]
pub(crate) struct Tables {
    pub(crate) width: u8,
    // The ticks left.
    pub(crate) left: u32,
    // The core queue and the waiting queue, each from its first to its last.
    pub(crate) running: ArrayVec<Running, 16>,
    pub(crate) waiting: ArrayVec<Waiting, MAX_TASKS>,
    // The cores that were taken over.
    pub(crate) taken: ArrayVec<Running, 16>,
}

// What happens at the end of a passage.
// Kept: its time passes first, so that what happens then has to be told before it is done.
#[derive(Clone, Copy)]
pub(crate) enum Kind {
    TakeOver,
    Refill,
    Leave,
    Rest,
}
