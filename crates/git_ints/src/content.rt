//! The greatest common divisor of a vector's entries.
ghost use Rattle.std.specs.Prelude.{◌≡◌, ◌≢◌, ◌≤◌, ◌<◌, ◌^◌, ℕ, ℤ, pos, ◌*ℤ◌, length, All};
ghost use Rattle.std.specs.Int.{IsGcd, ◌∣◌};
ghost use Rattle.std.specs.Int.RustNames.{unsigned_abs};
ghost use Rattle.git_ints.specs.Content.{IsContent};

/// The greatest common divisor of two numbers of 64 bits, by Euclid's algorithm.
fn short_divisor(a: u64, b: u64) -> u64
    ensures { IsGcd a b result }
{
    let mut x = a;
    let mut y = b;
    while y > 0 {
        let rest = x % y;
        x = y;
        y = rest;
    }
    x
}

/// The greatest common divisor, by Euclid's algorithm, on 64 bits as soon as the smaller number fits.
fn greatest_common_divisor(a: u128, b: u128) -> u128
    ensures { IsGcd a b result }
{
    let mut x = a;
    let mut y = b;
    while y > u64::MAX as u128 {
        let rest = x % y;
        x = y;
        y = rest;
    }
    if y == 0 {
        return x;
    }
    let rest = x % y;
    short_divisor(y as u64, rest as u64) as u128
}

/// The greatest common divisor of all entries.
pub(crate) fn content(entries: &[i128]) -> u128
    ensures { IsContent entries.now result }
{
    let mut all = 0u128;
    for entry in entries {
        all = greatest_common_divisor(all, entry.unsigned_abs());
        if all == 1 {
            return 1;
        }
    }
    all
}

/// An entry over a divisor.
pub(crate) fn quotient(entry: i128, by: u128) -> i128
    requires some { 0 < by }
    requires small { by ≤ 2 ^ 126 }
    requires divides { by ∣ unsigned_abs entry }
    ensures { entry ≡ pos by *ℤ result }
{
    entry / (by as i128)
}
