ghost use Rattle.std.specs.Prelude.{◌≡◌, ◌+◌, ◌*◌, ◌<◌, ◌≤◌, length, take, is_ok, MatchResult};
ghost use Rattle.refusal.specs.declared.Layer.TheVariants.{File};
ghost use Rattle.refusal.specs.Table.{file_told, refusal};
ghost use Rattle.sheet.specs.Sheets.{limited, row_at, share, shares_at};

use crate::types::{MAX_ROWS, Sheet, TABLE};
use card::MAX_TASKS;
use refusal::FileFault;
use table::padded;

// The counts of a sheet are within their limits.
fn within_limits(rows: u16, count: u8) -> bool
    ensures { result ≡ limited rows count }
{
    (1..=MAX_ROWS).contains(&rows) && (1..=MAX_TASKS).contains(&count)
}

impl Sheet {
    // The first rows * count shares of the table, interval by interval.
    // Kept: a file tells the counts, which may be any numbers, and the shares are in a table of a fixed size.
    pub fn new(rows: u16, count: u8, shares: &[u32; TABLE]) -> Result<Sheet, FileFault>
        ensures made { MatchResult result (λ s. (s.rows ≡ rows) × (s.count ≡ count) × (take (rows * count) s.shares ≡ take (rows * count) shares.now)) (λ e. file_told e ≡ refusal File 2 0 0) }
        ensures when { is_ok result ≡ limited rows count }
    {
        if !within_limits(rows, count) {
            return Err(FileFault::Counts);
        }
        let used = usize::from(rows) * usize::from(count);
        Ok(Sheet {
            rows: rows as u8,
            count,
            shares: padded(&shares[..used], 0),
        })
    }

    // How many intervals it has rows for.
    pub fn rows(&self) -> u8
        ensures { result ≡ self.now.rows }
    {
        self.rows
    }

    // How many tasks each row has shares for.
    pub fn count(&self) -> u8
        ensures { result ≡ self.now.count }
    {
        self.count
    }

    // All shares, interval by interval.
    pub fn shares(&self) -> &[u32]
        ensures all { result.now ≡ take (self.now.rows * self.now.count) self.now.shares }
        ensures size { length result.now ≡ self.now.rows * self.now.count }
    {
        &self.shares[..usize::from(self.rows) * usize::from(self.count)]
    }

    // The shares of interval k, from 0; none past the last.
    #[tactic(auto, using(crate::proofs::Rooms::row_room))]
    pub fn row(&self, k: usize) -> &[u32]
        ensures part { result.now ≡ row_at self.now k }
        ensures size { length result.now ≡ shares_at self.now k }
    {
        if k < usize::from(self.rows) {
            let count = usize::from(self.count);
            let from = k * count;
            &self.shares[from..from + count]
        } else {
            &[]
        }
    }

    // The share of task i in interval k, both from 0.
    pub(crate) fn share(&self, k: usize, i: usize) -> u32
        requires row { k < self.now.rows }
        requires task { i < self.now.count }
        ensures { result ≡ share self.now k i }
    {
        self.row(k)[i]
    }
}
