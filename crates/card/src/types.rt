ghost use Rattle.std.specs.Prelude.{◌≡◌, ℕ, ◌≤◌, length, slice_index_or};
ghost use Rattle.card.specs.Tasks.{nobody};

// A task is released at every multiple of its period, from tick 0 on, and each job needs its run time.
#[derive(Clone, Copy, PartialEq, Eq, Default, Debug)]
pub struct Task {
    pub period: u32,
    pub run_time: u32,
}

// M cores and N tasks, within their limits. It need not be lawful.
// Kept: a table with a count, here and in Intervals. Both are Copy and allocate nothing, and an ArrayVec is not Copy.
#[derive(Clone, Copy)]
pub struct Card {
    pub(crate) cores: u8,
    pub(crate) count: u8,
    pub(crate) tasks: [Task; 32],
    ghost some_cores: { 1 ≤ cores },
    ghost few_cores: { cores ≤ 16 },
    ghost some_tasks: { 1 ≤ count },
    ghost few_tasks: { count ≤ 32 },
    // Kept: code knows an array's length, but theorems on every Card (equal cards are one value) have it from here.
    ghost table: { length tasks ≡ 32 },
    ghost rest: { (i : ℕ) → count ≤ i → slice_index_or tasks i nobody ≡ nobody },
}

// The frame length and the boundaries below it, rising: the intervals of a lawful card.
#[derive(Clone, Copy)]
pub struct Intervals {
    pub(crate) frame: u32,
    pub(crate) count: u8,
    pub(crate) starts: [u32; 128],
    ghost few: { count ≤ 128 },
    // Kept: as in Card; theorems on every Intervals (as many starts as it counts) have the length from here.
    ghost table: { length starts ≡ 128 },
}
