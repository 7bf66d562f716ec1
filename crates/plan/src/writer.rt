// The writer of plan files.
ghost use Rattle.std.specs.Prelude.{◌≡◌, ℕ, ◌+◌, ◌*◌, ◌≤◌, ◌&&◌, ◌++◌, map, length, take, drop, is_ok, IfOk, MatchResult, ◌==◌, nat_le};
ghost use Rattle.card.specs.Cards.{tasks_of};
ghost use Rattle.plan.specs.File.{bytes_of, entry_bytes, entry_of, number_of, trailer_bytes};
ghost use Rattle.plan.specs.Plans.{Holds, file_for, judged_write, shares_of, written};
ghost use Rattle.refusal.specs.Table.{file_told, numbered};
ghost use Rattle.std.specs.List.{flat_map};

use crate::coding::{Coded, put};
use crate::trailer::{MAX_NOTE, TRAILER, Trailer, sheet_offset};
use card::Card;
use refusal::FileFault;
use sheet::Sheet;

// Writes items from a place on.
fn put_all<T: Coded>(items: &[T], at: usize, out: &mut [u8])
    requires { at + T.WIDTH * length items.now ≤ length out.old }
    ensures is { out.new ≡ written out.old at (flat_map T.code items.now) }
    ensures back { map (λ x. T.decode (T.code x)) items.now ≡ items.now }
{
    // Kept: the place of item i in the bytes, as in read_all.
    for (i, item) in items.iter().enumerate() {
        item.put(at + T::WIDTH * i, out);
    }
}

// Writes the trailer at a place.
fn put_trailer(t: Trailer, at: usize, out: &mut [u8])
    requires { at + 12 ≤ length out.old }
    ensures { out.new ≡ written out.old at (trailer_bytes t.card t.sheet t.cores t.count t.rows) }
{
    put(&t.bytes(), at, out);
}

// The note is short enough, and the sheet is one for the card's tasks.
fn can_write(note: usize, card: &Card, sheet: &Sheet) -> bool
    ensures { result ≡ (nat_le note 255 && sheet.now.count == card.now.count) }
{
    note <= MAX_NOTE && sheet.count() == card.task_count()
}

// What a file is written from: a note that is short enough, and a sheet for the card's tasks.
#[derive(Clone, Copy)]
struct Pieces<'a> {
    note: &'a [u8],
    card: &'a Card,
    sheet: &'a Sheet,
    ghost short: { length note.now ≤ 255 },
    ghost same: { sheet.now.count ≡ card.now.count },
}

impl Pieces<'_> {
    // The trailer of the file.
    fn trailer(&self) -> Trailer
        ensures card { result.card ≡ length self.now.note.now }
        ensures sheet { result.sheet ≡ length self.now.note.now + 8 * self.now.card.now.count }
        ensures cores { result.cores ≡ self.now.card.now.cores }
        ensures count { result.count ≡ self.now.card.now.count }
        ensures rows { result.rows ≡ self.now.sheet.now.rows }
    {
        let note = self.note.len();
        let count = self.card.task_count();
        Trailer {
            card: note as u32,
            sheet: sheet_offset(note, count) as u32,
            cores: self.card.cores(),
            count,
            rows: u16::from(self.sheet.rows()),
        }
    }

    // How many bytes the file has.
    fn size(&self) -> usize
        ensures { result ≡ length self.now.note.now + 8 * self.now.card.now.count + 4 * (self.now.sheet.now.rows * self.now.card.now.count) + 12 }
    {
        self.trailer().offset() + TRAILER
    }

    // Writes the file.
    fn put(&self, out: &mut [u8])
        requires { length self.now.note.now + 8 * self.now.card.now.count + 4 * (self.now.sheet.now.rows * self.now.card.now.count) + 12 ≤ length out.old }
        ensures is { out.new ≡ written out.old 0 (file_for self.now.note.now self.now.card.now self.now.sheet.now) }
        ensures tasks { map (λ t. entry_of (entry_bytes t)) (tasks_of self.now.card.now) ≡ tasks_of self.now.card.now }
        ensures shares { map (λ x. number_of (bytes_of 4 x)) (shares_of self.now.sheet.now) ≡ shares_of self.now.sheet.now }
    {
        let t = self.trailer();
        put(self.note, 0, out);
        put_all(self.card.tasks(), t.card as usize, out);
        put_all(self.sheet.shares(), t.sheet as usize, out);
        put_trailer(t, t.offset(), out);
    }
}

// Writes the file into the first bytes of `out`, and tells its length. A refusal changes no byte.
pub fn write(note: &[u8], card: &Card, sheet: &Sheet, out: &mut [u8]) -> Result<usize, FileFault>
    ensures judged { MatchResult result (λ n. (n ≡ length (file_for note.now card.now sheet.now)) × (out.new ≡ file_for note.now card.now sheet.now ++ drop n out.old)) (λ e. (file_told e ≡ numbered (judged_write note.now card.now sheet.now (length out.old))) × (out.new ≡ out.old)) }
    ensures when { is_ok result ≡ ((judged_write note.now card.now sheet.now (length out.old)).0 == 0) }
    ensures small { IfOk result (λ n. n ≤ 16907) }
    ensures back { IfOk result (λ n. Holds (take n out.new) note.now card.now sheet.now) }
{
    if !can_write(note.len(), card, sheet) {
        return Err(FileFault::Layout);
    }
    let pieces = Pieces { note, card, sheet };
    let size = pieces.size();
    if out.len() < size {
        return Err(FileFault::NoSpace);
    }
    pieces.put(out);
    Ok(size)
}
