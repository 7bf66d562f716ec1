ghost use Rattle.std.specs.Prelude.{◌≡◌, ℕ, ◌*◌, ◌≤◌, length, slice_index};

pub const MAX_ROWS: u16 = 128;

pub(crate) const TABLE: usize = 4096;

// K rows of N shares, interval by interval, within their limits. It need not be accepted.
// Kept: a table of a fixed size with its counts, so that a sheet is Copy and nothing of it is allocated.
#[derive(Clone, Copy)]
pub struct Sheet {
    pub(crate) rows: u8,
    pub(crate) count: u8,
    pub(crate) shares: [u32; TABLE],
    ghost some_rows: { 1 ≤ rows },
    ghost few_rows: { rows ≤ 128 },
    ghost some_shares: { 1 ≤ count },
    ghost few_shares: { count ≤ 32 },
    // Kept: no code here needs it now, but a lemma over a sheet (two in plan) knows its table by this alone.
    ghost table: { length shares ≡ 4096 },
    ghost rest: { (i : ℕ) → rows * count ≤ i → slice_index shares i ≡ 0 },
}
