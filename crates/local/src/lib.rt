// What a local scheduler means: it hands out the slices of one interval after another.
#![tactic(auto)]

ghost use Rattle.std.specs.Prelude.{◌≡◌, ℕ, ◌*◌, ◌/◌, ◌%◌, ◌^◌, ◌<◌, ◌≤◌, true, false, if◌then◌else◌, MatchResult, bit_or, count_ones, length, nat_lt, slice_index, sum};
ghost use Rattle.refusal.specs.Table.{local_told, refusal};
ghost use Rattle.refusal.specs.declared.Layer.TheVariants.{Local as LocalLayer};
ghost use Rattle.local.specs.Masks.{bit, mask, seated_cores};
ghost use Rattle.local.specs.Meaning.{Local, Fresh, Limits, Fit, Loaded, Handed, amount_of};

use refusal::LocalFault;

mod slice;

pub use slice::Slice;

// Kept: card says two of these limits too. It knows nothing of schedulers, and they nothing of cards.
pub const MAX_CORES: u8 = 16;

pub const MAX_TASKS: usize = 32;

pub const MAX_LENGTH: u32 = 1_000_000;

// Kept: each impl refuses for itself: provided methods would call methods with a `requires`, which no public call has.
// Kept: width, length and shares stay apart: a struct of them would be made at each call of `load` and taken apart in it.
pub trait LocalScheduler {
    // The letter that it is printed by.
    const LETTER: char;

    ghost LETTER: { ℕ };

    ghost meaning: { Local Self };

    // Nothing is loaded.
    fn new() -> Self
        ensures { Fresh meaning result };

    // Takes the shares of an interval of `length` ticks on `width` cores.
    fn load(&mut self, width: u8, length: u32, shares: &[u32]) -> Result<(), LocalFault>
        ensures { MatchResult result (λ _. Loaded meaning self.old width length shares.now self.new) (λ e. (local_told e ≡ refusal LocalLayer 31 0 0) × (Fit width length shares.now → ⊥) × (self.new ≡ self.old)) };

    // Hands out its choice.
    fn next(&mut self) -> Result<Slice, LocalFault>
        ensures { MatchResult result (λ z. Handed meaning self.old z self.new) (λ e. (local_told e ≡ refusal LocalLayer 32 0 0) × (meaning.left self.old ≡ 0) × (self.new ≡ self.old)) };

    fn ticks_left(&self) -> u32
        ensures { result ≡ meaning.left self.now };

    // What is left of a task's share, by its number from 1; 0 outside 1 to 32.
    // Kept: no Option, since the rule tells 0 of a number that no task has.
    fn amount(&self, task: u32) -> u32
        ensures { result ≡ amount_of meaning self.now task };
}

// The mask with the bit of a core, from 0, where it is seated.
fn marked(busy: u16, core: usize, seat: u8) -> u16
    requires { core < 16 }
    ensures { result ≡ (if nat_lt 0 seat then bit_or busy ((1 * 2 ^ core) % 2 ^ 16) else busy) }
{
    if 0 < seat {
        busy | (1u16 << core)
    } else {
        busy
    }
}

#[tactic(auto, using(crate::proofs::Masks::mask_more))]
fn mask_of(seats: &[u8; 16]) -> u16
    ensures { result ≡ mask seats.now }
{
    let mut busy = 0;
    for (core, seat) in seats.iter().enumerate() {
        busy = marked(busy, core, *seat);
    }
    busy
}

impl Slice {
    // The only place where a slice is made.
    #[tactic(auto, using(crate::proofs::Masks::mask_tells))]
    pub fn new(length: u32, seats: [u8; 16]) -> Slice
        ensures fields { (result.length ≡ length) × (result.seats ≡ seats) }
        ensures tells { (c : ℕ) → c < 16 → result.busy / 2 ^ c % 2 ≡ bit (slice_index result.seats c) }
    {
        let busy = mask_of(&seats);
        Slice {
            length,
            seats,
            busy,
        }
    }

    // How many cores are seated.
    #[tactic(auto, using(crate::proofs::Masks::ones_seated))]
    pub fn busy_cores(&self) -> u32
        ensures ones { result ≡ count_ones self.now.busy }
        ensures cores { result ≡ seated_cores self.now.seats }
    {
        self.busy.count_ones()
    }
}

fn in_limits(width: u8, length: u32, count: usize) -> bool
    ensures yes { result ≡ true → Limits width length count }
    ensures not { result ≡ false → Limits width length count → ⊥ }
{
    (1..=MAX_CORES).contains(&width) && (1..=MAX_LENGTH).contains(&length) && count <= MAX_TASKS
}

fn total(shares: &[u32]) -> u64
    requires { length shares.now ≤ 32 }
    ensures { result ≡ sum shares.now }
{
    shares.iter().map(|share| u64::from(*share)).sum()
}

// Whether a load takes a width, a length and shares.
pub fn fits(width: u8, length: u32, shares: &[u32]) -> bool
    ensures yes { result ≡ true → Fit width length shares.now }
    ensures not { result ≡ false → Fit width length shares.now → ⊥ }
{
    in_limits(width, length, shares.len())
        && shares.iter().all(|share| *share <= length)
        && total(shares) <= u64::from(width) * u64::from(length)
}
