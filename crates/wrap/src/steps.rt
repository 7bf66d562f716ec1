// Taking a load, and handing out a slice.
ghost use Rattle.std.specs.Prelude.{◌≤◌};
ghost use Rattle.local.specs.Meaning.{Fit, Handed, Loaded};
ghost use Rattle.wrap.specs.Wrap.{Laid};
ghost use Rattle.wrap.specs.Told.{view, told};

use crate::state::Wrap;
use local::Slice;
use table::padded;

impl Wrap {
    // Takes a load that fits.
    pub(crate) fn take(&mut self, width: u8, length: u32, shares: &[u32])
        requires { Fit width length shares.now }
        ensures { Loaded told self.old width length shares.now self.new }
    {
        *self = Wrap {
            width,
            length,
            left: length,
            shares: padded(shares, 0),
        };
    }

    // Hands out the next slice.
    pub(crate) fn hand_out(&mut self) -> Slice
        requires { 1 ≤ self.old.left }
        ensures handed { Handed told self.old result self.new }
        ensures laid { Laid (view self.old) result }
    {
        let slice = self.chosen();
        self.left -= slice.length;
        slice
    }
}
