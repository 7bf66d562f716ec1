ghost use Rattle.std.specs.Prelude.{◌≡◌};
ghost use Rattle.dispatch.specs.Places.{target};

// Where a dispatcher stands: before the first slice of a frame, or in an interval of a frame, which the scheduler has loaded.
#[derive(Clone, Copy, PartialEq, Eq, Debug)]
pub(crate) enum Place {
    Before(u32),
    In(u32, u8),
}

impl Place {
    // The frame and the interval to load next, with so many intervals in a frame; none behind the last frame of all.
    pub(crate) fn next(self, count: u8) -> Option<(u32, u8)>
        ensures { result ≡ target self count }
    {
        match self {
            Place::Before(frame) => Some((frame, 0)),
            Place::In(frame, interval) if u16::from(interval) + 1 < u16::from(count) => {
                Some((frame, interval + 1))
            }
            Place::In(frame, _) if frame < u32::MAX => Some((frame + 1, 0)),
            Place::In(_, _) => None,
        }
    }
}
