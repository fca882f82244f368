//! Sums and products of integers that fit 128 bits.
ghost use Rattle.std.specs.Prelude.{◌≡◌, ◌≤◌, ◌^◌, ◌*◌, ℤ, ◌*ℤ◌, ◌+ℤ◌};
ghost use Rattle.std.specs.Int.RustNames.{unsigned_abs};

use git_limits::ENTRY;

/// The product of two integers, of at most 2^123.
pub fn product(a: i128, b: i128) -> i128
    requires { unsigned_abs a * unsigned_abs b ≤ 2 ^ 123 }
    ensures value { result ≡ a *ℤ b }
    ensures within { unsigned_abs result ≤ unsigned_abs a * unsigned_abs b }
{
    a * b
}

/// The sum of two integers of at most 2^125.
pub fn sum(a: i128, b: i128) -> i128
    requires first { unsigned_abs a ≤ 2 ^ 125 }
    requires second { unsigned_abs b ≤ 2 ^ 125 }
    ensures { result ≡ a +ℤ b }
{
    a + b
}

/// `a x + b y`.
pub(crate) fn blend(a: i128, x: i128, b: i128, y: i128) -> i128
    requires one { unsigned_abs a ≤ 2 ^ 83 }
    requires first { unsigned_abs x ≤ ENTRY }
    requires other { unsigned_abs b ≤ 2 ^ 83 }
    requires second { unsigned_abs y ≤ ENTRY }
    ensures { result ≡ a *ℤ x +ℤ b *ℤ y }
{
    sum(product(a, x), product(b, y))
}
