// The reader of plan files.
ghost use Rattle.std.specs.Prelude.{◌≡◌, ℕ, ◌*◌, ◌≤◌, length, take, is_ok, IfOk, IsTrue, MatchResult, ◌==◌};
ghost use Rattle.card.specs.Verdicts.{fine};
ghost use Rattle.plan.specs.File.{judged_file, note_in, note_or, parts};
ghost use Rattle.plan.specs.Plans.{CardRead, OneCard, OneSheet, SheetRead, file_for};
ghost use Rattle.plan.specs.Trailers.{Agrees, Read};
ghost use Rattle.refusal.specs.Table.{file_told, numbered};
ghost use Rattle.std.specs.List.{flat_map};

use crate::coding::Coded;
use crate::trailer::Trailer;
use card::{Card, MAX_TASKS, Task};
use refusal::FileFault;
use sheet::{MAX_ROWS, Sheet};

const TASKS: usize = MAX_TASKS as usize;

const SHARES: usize = MAX_ROWS as usize * TASKS;

// The first `n` items in a table, with `none` behind them.
// Kept: the number beside the bytes, which have more behind the items.
fn read_all<T: Coded, const N: usize>(bytes: &[u8], n: usize, none: T) -> [T; N]
    requires places { n ≤ N }
    requires bytes { T.WIDTH * n ≤ length bytes.now }
    ensures items { take n result ≡ parts T.WIDTH T.decode n bytes.now }
    ensures back { flat_map T.code (parts T.WIDTH T.decode n bytes.now) ≡ take (T.WIDTH * n) bytes.now }
{
    let mut table = [none; N];
    // Kept: the place of item i in the bytes. Zipped with chunks of them (tried) a width above 0 is asked, and no item is known that an iterator lent.
    for (i, place) in table[..n].iter_mut().enumerate() {
        *place = T::first(&bytes[T::WIDTH * i..]);
    }
    table
}

// A reader over the bytes of a plan file that passes every check.
#[derive(Clone, Copy)]
pub struct Reader<'a> {
    bytes: &'a [u8],
    trailer: Trailer,
    ghost passes: { judged_file bytes.now ≡ fine },
    ghost read: { Read bytes.now trailer },
    ghost agrees: { Agrees (length bytes.now) trailer },
}

// A reader of these bytes, or the first check that they fail.
pub fn open(bytes: &[u8]) -> Result<Reader<'_>, FileFault>
    ensures judged { MatchResult result (λ f. (f.bytes.now ≡ bytes.now) × (judged_file bytes.now ≡ fine)) (λ e. file_told e ≡ numbered (judged_file bytes.now)) }
    ensures when { is_ok result ≡ ((judged_file bytes.now).0 == 0) }
{
    let trailer = Trailer::checked(bytes)?;
    Ok(Reader { bytes, trailer })
}

impl<'a> Reader<'a> {
    // The note, as a part of the same bytes.
    pub fn note(&self) -> &'a [u8]
        ensures passed { judged_file self.now.bytes.now ≡ fine → result.now ≡ note_in self.now.bytes.now }
        ensures each { result.now ≡ note_or self.now.bytes.now }
    {
        &self.bytes[..self.trailer.card as usize]
    }

    // The card that the bytes hold.
    // Kept: beside sheet_in, since each makes another type by its own `new`, and the file says of each something else.
    fn card_in(&self) -> Result<Card, FileFault>
        ensures is { MatchResult result (λ card. CardRead self.now.bytes.now card) (λ _. ⊥) }
        ensures one { IfOk result (λ card. OneCard self.now.bytes.now card) }
    {
        let t = self.trailer;
        let tasks: [Task; TASKS] = read_all(
            &self.bytes[t.card as usize..],
            usize::from(t.count),
            Task::default(),
        );
        Card::new(t.cores, t.count, &tasks)
    }

    // The card; the answer is never a refusal.
    pub fn card(&self) -> Result<Card, FileFault>
        ensures judged { MatchResult result (λ card. (judged_file self.now.bytes.now ≡ fine) × CardRead self.now.bytes.now card) (λ e. file_told e ≡ numbered (judged_file self.now.bytes.now)) }
        ensures when { is_ok result ≡ ((judged_file self.now.bytes.now).0 == 0) }
        ensures one { IfOk result (λ card. OneCard self.now.bytes.now card) }
        ensures answers { IsTrue (is_ok result) }
    {
        self.card_in()
    }

    // The sheet that the bytes hold.
    fn sheet_in(&self) -> Result<Sheet, FileFault>
        ensures is { MatchResult result (λ sheet. SheetRead self.now.bytes.now sheet) (λ _. ⊥) }
        ensures one { IfOk result (λ sheet. OneSheet self.now.bytes.now sheet) }
    {
        let t = self.trailer;
        let shares: [u32; SHARES] = read_all(&self.bytes[t.sheet as usize..], t.cells(), 0);
        Sheet::new(t.rows, t.count, &shares)
    }

    // The sheet; the answer is never a refusal.
    pub fn sheet(&self) -> Result<Sheet, FileFault>
        ensures judged { MatchResult result (λ sheet. (judged_file self.now.bytes.now ≡ fine) × SheetRead self.now.bytes.now sheet) (λ e. file_told e ≡ numbered (judged_file self.now.bytes.now)) }
        ensures when { is_ok result ≡ ((judged_file self.now.bytes.now).0 == 0) }
        ensures one { IfOk result (λ sheet. OneSheet self.now.bytes.now sheet) }
        ensures answers { IsTrue (is_ok result) }
    {
        self.sheet_in()
    }

    // The card and the sheet. With the note they give the same bytes again.
    #[tactic(auto, using(crate::proofs::Whole::whole))]
    pub fn read(&self) -> Result<(Card, Sheet), FileFault>
        ensures judged { MatchResult result (λ p. (judged_file self.now.bytes.now ≡ fine) × CardRead self.now.bytes.now p.0 × SheetRead self.now.bytes.now p.1) (λ e. file_told e ≡ numbered (judged_file self.now.bytes.now)) }
        ensures when { is_ok result ≡ ((judged_file self.now.bytes.now).0 == 0) }
        ensures one { IfOk result (λ p. OneCard self.now.bytes.now p.0 × OneSheet self.now.bytes.now p.1) }
        ensures back { IfOk result (λ p. file_for (note_in self.now.bytes.now) p.0 p.1 ≡ self.now.bytes.now) }
        ensures answers { IsTrue (is_ok result) }
    {
        Ok((self.card()?, self.sheet()?))
    }
}
