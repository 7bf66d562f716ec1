// What a dispatcher keeps of the slices that it handed out.
ghost use Rattle.std.specs.Prelude.{◌≡◌, length};

// Ticks given to a task's current job and still owed to it, together its run time.
#[derive(Clone, Copy)]
pub struct Account {
    pub(crate) given: u32,
    pub(crate) owed: u32,
}

#[derive(Clone, Copy)]
pub struct Books {
    pub(crate) accounts: [Account; 32],
    pub(crate) slices: u64,
    pub(crate) switches: u64,
    pub(crate) busy: u64,
    // The seats of the last slice.
    pub(crate) seats: [u8; 16],
    // Kept: no code here needs it, but a lemma over a dispatcher knows its table by this alone.
    ghost table: { length accounts ≡ 32 },
}
