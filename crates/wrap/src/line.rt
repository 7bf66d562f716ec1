// The line of places: the shares laid end to end, `length` places to a core.
ghost use Rattle.std.specs.Prelude.{◌≡◌, ℕ, ◌+◌, ◌-◌, ◌*◌, ◌^◌, ◌<◌, ◌≤◌, min, max, ◌&&◌, if◌then◌else◌, sum, nat_le, nat_lt};
ghost use Rattle.wrap.specs.Wrap.{task_at, next_cut, seat_at, seats_at, meets, offset, choice, amount};
ghost use Rattle.wrap.specs.Told.{view};

use crate::state::Wrap;
use local::Slice;
use std::array;
use std::ops::Range;

// Kept: apart from task_at, so that the bounds of a stretch are told and proved by themselves.
fn in_stretch(stretch: &Range<u32>, place: u32) -> bool
    ensures { result ≡ (nat_le stretch.now.start place && nat_lt place stretch.now.end) }
{
    stretch.contains(&place)
}

// The nearest cut so far, or the tick where a share ends, if that is nearer.
fn nearer(nearest: u32, share: u32, end: u32, past: u32) -> u32
    ensures { result ≡ (if nat_lt 0 share && (nat_lt past end && nat_lt end nearest) then end else nearest) }
{
    if 0 < share && past < end && end < nearest {
        end
    } else {
        nearest
    }
}

// How many places two stretches have in common.
fn common(a: &Range<u32>, b: &Range<u32>) -> u32
    ensures { result ≡ min a.now.end b.now.end - max a.now.start b.now.start }
{
    a.end.min(b.end).saturating_sub(a.start.max(b.start))
}

// The place where shares end.
fn line_end(shares: &[u32]) -> u32
    requires { sum shares.now < 2 ^ 32 }
    ensures { result ≡ sum shares.now }
{
    shares.iter().sum()
}

impl Wrap {
    // The tick that the next slice begins at.
    fn offset(&self) -> u32
        ensures { result ≡ offset (view self.now) }
    {
        self.length - self.left
    }

    // The task whose stretch holds a place, 0 for none.
    // Kept: no Option, since 0 is the seat of an idle core.
    fn task_at(&self, place: u32) -> u8
        ensures { result ≡ task_at self.now.shares place }
    {
        let mut start = 0;
        for (i, share) in self.shares.iter().enumerate() {
            let stretch = start..start + *share;
            if in_stretch(&stretch, place) {
                return i as u8 + 1;
            }
            start = stretch.end;
        }
        0
    }

    // The least cut above a tick.
    fn next_cut(&self, past: u32) -> u32
        requires { past < self.now.length }
        ensures { result ≡ next_cut self.now.shares self.now.length past }
    {
        let mut nearest = self.length;
        let mut end = 0;
        for share in &self.shares {
            end += *share;
            nearest = nearer(nearest, *share, end % self.length, past);
        }
        nearest
    }

    // The seat of a core, from 0, in the next slice.
    // Kept: no Option, as in task_at.
    fn seat_of(&self, core: u32) -> u8
        ensures { result ≡ seat_at self.now.shares self.now.width self.now.length (offset (view self.now)) core }
    {
        if core < u32::from(self.width) {
            self.task_at(core * self.length + self.offset())
        } else {
            0
        }
    }

    // The seats of the next slice.
    fn seats(&self) -> [u8; 16]
        ensures { result ≡ seats_at self.now.shares self.now.width self.now.length (offset (view self.now)) }
    {
        array::from_fn(|core| self.seat_of(core as u32))
    }

    // The next slice.
    pub(crate) fn chosen(&self) -> Slice
        requires { 1 ≤ self.now.left }
        ensures { result ≡ choice (view self.now) }
    {
        let x = self.offset();
        Slice::new(self.next_cut(x) - x, self.seats())
    }

    // How many places of a stretch are still to come on a core, from 0.
    fn places_on(&self, core: u8, stretch: &Range<u32>) -> u32
        requires { core < self.now.width }
        ensures { result ≡ min stretch.now.end (core * self.now.length + self.now.length) - max stretch.now.start (core * self.now.length + offset (view self.now)) }
    {
        let first = u32::from(core) * self.length;
        common(stretch, &(first + self.offset()..first + self.length))
    }

    // How many places of a stretch are still to come.
    fn places_left(&self, stretch: &Range<u32>) -> u32
        ensures { result ≡ meets stretch.now.start stretch.now.end self.now.length (offset (view self.now)) self.now.width }
    {
        (0..self.width)
            .map(|core| self.places_on(core, stretch))
            .sum()
    }

    // What is left of a task, by its number from 1.
    pub(crate) fn amount_of(&self, task: usize) -> u32
        requires from_one { 1 ≤ task }
        requires to_last { task ≤ 32 }
        ensures { result ≡ amount (view self.now) task }
    {
        let start = line_end(&self.shares[..task - 1]);
        self.places_left(&(start..start + self.shares[task - 1]))
    }
}
