// What the intervals tell.
ghost use Rattle.std.specs.Prelude.{◌≡◌, ◌-◌, ◌&&◌, if◌then◌else◌, length, nat_le, None, Some};
ghost use Rattle.card.specs.Times.{starts_of, start_of};

use crate::types::Intervals;

impl Intervals {
    pub fn frame(&self) -> u32
        ensures { result ≡ self.now.frame }
    {
        self.frame
    }

    pub fn count(&self) -> u8
        ensures { result ≡ self.now.count }
    {
        self.count
    }

    pub fn starts(&self) -> &[u32]
        ensures all { result.now ≡ starts_of self.now }
        ensures len { length result.now ≡ self.now.count }
    {
        &self.starts[..usize::from(self.count)]
    }

    // Where the interval behind `k` others begins; the frame's end behind all.
    pub fn start(&self, k: usize) -> u32
        ensures { result ≡ start_of self.now k }
    {
        self.starts().get(k).copied().unwrap_or(self.frame)
    }

    // Where the interval with this number, from 1, begins, if there is one.
    pub(crate) fn begins(&self, interval: u8) -> Option<u32>
        ensures { result ≡ (if nat_le 1 interval && nat_le interval self.now.count then Some (start_of self.now (interval - 1)) else None) }
    {
        if !(1..=self.count).contains(&interval) {
            return None;
        }
        Some(self.start(usize::from(interval - 1)))
    }
}
