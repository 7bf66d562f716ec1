// The rule of IZL: definitions and lemmas alone.
#![tactic(auto)]

// A task in the waiting queue, ordered by what is left of it, then by its number.
#[derive(Clone, Copy, Default, PartialEq, Eq, PartialOrd, Ord)]
pub struct Waiting {
    pub amount: u32,
    pub task: u8,
}

// A core, what is left of the task on it, and that task.
#[derive(Clone, Copy, Default)]
pub struct Running {
    pub core: u8,
    pub amount: u32,
    pub task: u8,
}
