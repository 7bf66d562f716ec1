// Numbers and task entries as bytes.
ghost use Rattle.std.specs.Prelude.{◌≡◌, ℕ, ◌+◌, ◌≤◌, List, length, take, refl};
ghost use Rattle.plan.specs.File.{bytes_of, entry_bytes, entry_of, number_of};
ghost use Rattle.plan.specs.Plans.{written};

use card::Task;

// A value that has a fixed number of bytes in a file.
pub(crate) trait Coded: Copy {
    const WIDTH: usize;

    ghost WIDTH: { ℕ };

    // The bytes of a value, and the value of bytes.
    ghost code: { Self → List ℕ };

    ghost decode: { List ℕ → Self };

    // The value at the front.
    fn first(bytes: &[u8]) -> Self
        requires { WIDTH ≤ length bytes.now }
        ensures is { result ≡ decode (take WIDTH bytes.now) }
        ensures back { code result ≡ take WIDTH bytes.now };

    // Writes the bytes at a place.
    fn put(self, at: usize, out: &mut [u8])
        requires { at + WIDTH ≤ length out.old }
        ensures is { out.new ≡ written out.old at (code self) }
        ensures back { decode (code self) ≡ self };

    // A law: the bytes are that many.
    ghost wide: { (x : Self) → length (code x) ≡ WIDTH };
}

impl Coded for u32 {
    const WIDTH: usize = 4;

    ghost WIDTH = { 4 };

    ghost code = { bytes_of 4 };

    ghost decode = { number_of };

    ghost wide = { λ x. refl };

    fn first(bytes: &[u8]) -> u32 {
        match bytes {
            [a, b, c, d, ..] => u32::from_be_bytes([*a, *b, *c, *d]),
            _ => unreachable!(),
        }
    }

    fn put(self, at: usize, out: &mut [u8]) {
        put(&u32::to_be_bytes(self), at, out);
    }
}

impl Coded for u16 {
    const WIDTH: usize = 2;

    ghost WIDTH = { 2 };

    ghost code = { bytes_of 2 };

    ghost decode = { number_of };

    ghost wide = { λ x. refl };

    fn first(bytes: &[u8]) -> u16 {
        match bytes {
            [a, b, ..] => u16::from_be_bytes([*a, *b]),
            _ => unreachable!(),
        }
    }

    fn put(self, at: usize, out: &mut [u8]) {
        put(&u16::to_be_bytes(self), at, out);
    }
}

impl Coded for Task {
    const WIDTH: usize = 8;

    ghost WIDTH = { 8 };

    ghost code = { entry_bytes };

    ghost decode = { entry_of };

    ghost wide = { λ x. refl };

    fn first(bytes: &[u8]) -> Task {
        match bytes {
            [a, b, c, d, e, f, g, h, ..] => Task {
                period: u32::first(&[*a, *b, *c, *d]),
                run_time: u32::first(&[*e, *f, *g, *h]),
            },
            _ => unreachable!(),
        }
    }

    fn put(self, at: usize, out: &mut [u8]) {
        self.period.put(at, out);
        self.run_time.put(at + u32::WIDTH, out);
    }
}

// Writes bytes at a place.
pub(crate) fn put(bytes: &[u8], at: usize, out: &mut [u8])
    requires { at + length bytes.now ≤ length out.old }
    ensures { out.new ≡ written out.old at bytes.now }
{
    out[at..at + bytes.len()].copy_from_slice(bytes);
}
