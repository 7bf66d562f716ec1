ghost use Rattle.std.specs.Prelude.{ℕ, ◌*◌, ◌≤◌, sum};
ghost use Rattle.wrap.specs.Wrap.{Table, largest};

use local::MAX_TASKS;

// Wrap-round, loaded or new.
#[derive(Drop)]
pub struct Wrap {
    pub(crate) width: u8,
    pub(crate) length: u32,
    // The ticks left.
    pub(crate) left: u32,
    // The share of each task, 0 behind the last.
    pub(crate) shares: [u32; MAX_TASKS],
    ghost wide: { width ≤ 16 },
    ghost short: { length ≤ 1000000 },
    ghost within: { left ≤ length },
    ghost full: { Table shares },
    ghost narrow: { largest shares ≤ length },
    ghost room: { sum shares ≤ width * length },
}
