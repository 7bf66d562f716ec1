// The last twelve bytes of a file, and their judgement.
ghost use Rattle.std.specs.Prelude.{◌≡◌, ℕ, ◌+◌, ◌*◌, ◌^◌, ◌<◌, ◌≤◌, true, length, is_ok, MatchResult, ◌==◌, nat_lt};
ghost use Rattle.card.specs.Verdicts.{fine};
ghost use Rattle.plan.specs.File.{judged_file, laid_out, trailer_bytes, within_limits};
ghost use Rattle.plan.specs.Trailers.{Agrees, Read};
ghost use Rattle.refusal.specs.declared.FileFault.TheVariants.{Stub};
ghost use Rattle.refusal.specs.Table.{file_told, numbered};

use crate::coding::{Coded, put};
use card::{MAX_CORES, MAX_TASKS, Task};
use refusal::FileFault;
use sheet::MAX_ROWS;

pub(crate) const MAX_NOTE: usize = 255;

pub(crate) const TRAILER: usize = 12;

// Where the card and the sheet begin, and the counts.
#[derive(Clone, Copy)]
pub(crate) struct Trailer {
    pub(crate) card: u32,
    pub(crate) sheet: u32,
    pub(crate) cores: u8,
    pub(crate) count: u8,
    pub(crate) rows: u16,
}

// Where the sheet begins, behind the note and the task entries.
pub(crate) fn sheet_offset(card: usize, count: u8) -> usize
    requires { card ≤ 255 }
    ensures is { result ≡ card + 8 * count }
    ensures small { result < 2 ^ 12 }
{
    card + Task::WIDTH * usize::from(count)
}

impl Trailer {
    // The trailer at the end of these bytes.
    fn of(bytes: &[u8]) -> Result<Trailer, FileFault>
        ensures { MatchResult result (λ t. Read bytes.now t) (λ e. (nat_lt (length bytes.now) 12 ≡ true) × (e ≡ Stub)) }
    {
        let [.., c0, c1, c2, c3, s0, s1, s2, s3, cores, count, k0, k1] = bytes else {
            return Err(FileFault::Stub);
        };
        Ok(Trailer {
            card: u32::first(&[*c0, *c1, *c2, *c3]),
            sheet: u32::first(&[*s0, *s1, *s2, *s3]),
            cores: *cores,
            count: *count,
            rows: u16::first(&[*k0, *k1]),
        })
    }

    // The twelve bytes of the trailer.
    pub(crate) fn bytes(self) -> [u8; TRAILER]
        ensures { result ≡ trailer_bytes self.card self.sheet self.cores self.count self.rows }
    {
        let mut bytes = [0; TRAILER];
        self.card.put(0, &mut bytes);
        self.sheet.put(4, &mut bytes);
        put(&[self.cores, self.count], 8, &mut bytes);
        self.rows.put(10, &mut bytes);
        bytes
    }

    // M, N and K are within their limits.
    fn counts_fit(&self) -> bool
        ensures { result ≡ within_limits self.now.cores self.now.count self.now.rows }
    {
        (1..=MAX_CORES).contains(&self.cores)
            && (1..=MAX_TASKS).contains(&self.count)
            && (1..=MAX_ROWS).contains(&self.rows)
    }

    // How many shares the sheet has.
    pub(crate) fn cells(&self) -> usize
        ensures is { result ≡ self.now.rows * self.now.count }
        ensures small { result < 2 ^ 24 }
    {
        usize::from(self.rows) * usize::from(self.count)
    }

    // Where the trailer itself begins, behind the shares.
    pub(crate) fn offset(&self) -> usize
        requires { self.now.sheet < 2 ^ 12 }
        ensures is { result ≡ self.now.sheet + 4 * (self.now.rows * self.now.count) }
        ensures small { result < 2 ^ 27 }
    {
        self.sheet as usize + u32::WIDTH * self.cells()
    }

    // The offsets and the length of the file are those of the counts.
    fn is_laid_out(&self, size: usize) -> bool
        ensures { result ≡ laid_out size self.now.card self.now.sheet self.now.count self.now.rows }
    {
        let card = self.card as usize;
        card <= MAX_NOTE
            && self.sheet as usize == sheet_offset(card, self.count)
            && size == self.offset() + TRAILER
    }

    // The trailer of a file that passes every check, or the first that fails.
    pub(crate) fn checked(bytes: &[u8]) -> Result<Trailer, FileFault>
        ensures judged { MatchResult result (λ t. (judged_file bytes.now ≡ fine) × Read bytes.now t × Agrees (length bytes.now) t) (λ e. file_told e ≡ numbered (judged_file bytes.now)) }
        ensures when { is_ok result ≡ ((judged_file bytes.now).0 == 0) }
    {
        let t = Trailer::of(bytes)?;
        if !t.counts_fit() {
            return Err(FileFault::Counts);
        }
        if !t.is_laid_out(bytes.len()) {
            return Err(FileFault::Layout);
        }
        Ok(t)
    }
}
