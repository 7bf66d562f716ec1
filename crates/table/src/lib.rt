// Tables of a fixed size: some items, and a stand-in behind them.
#![tactic(auto)]

ghost use Rattle.std.specs.Prelude.{◌≡◌, ◌-◌, ◌++◌, length, min, take, replicate};

// How many items have room in so many places.
fn fitting<T>(items: &[T], places: usize) -> usize
    ensures { result ≡ min places (length items.now) }
{
    places.min(items.len())
}

// The first N items, and `none` in each place that is left.
pub fn padded<T: Copy, const N: usize>(items: &[T], none: T) -> [T; N]
    ensures { result ≡ take N items.now ++ replicate (N - length items.now) none }
{
    let n = fitting(items, N);
    let mut table = [none; N];
    table[..n].copy_from_slice(&items[..n]);
    table
}
