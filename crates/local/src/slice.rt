ghost use Rattle.std.specs.Prelude.{◌≡◌};
ghost use Rattle.local.specs.Masks.{mask};

// A stretch of time in which no core changes its task.
#[derive(Clone, Copy)]
pub struct Slice {
    pub length: u32,
    // The task on each core, from 1; 0 where it is idle.
    // Kept: no Option, since 0 is the rule's own number for an idle core, and printed so.
    pub seats: [u8; 16],
    // Bit c - 1 is set exactly when core c is seated.
    pub busy: u16,
    ghost masked: { busy ≡ mask seats },
}
