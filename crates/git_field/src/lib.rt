//! Numbers modulo the prime 32003: the field over which the program's polynomials stand.
//!
//! An [`Fp`] is seen by contracts as the number from 0 to 32002 that it holds. No call takes memory.
#![tactic(auto)]

ghost use Rattle.std.specs.Prelude.{◌≡◌, ◌+◌, ◌*◌, ◌-◌, ◌%◌, ◌<◌, ◌≤◌, pos, IsNone, ◌↔◌, IfSome};
ghost use Rattle.std.specs.Int.{int_rem_euclid};
ghost use Rattle.std.specs.Int.RustNames.{unsigned_abs};
ghost use Rattle.git_field.specs.Field.{signed_of};
ghost use Rattle.git_field.specs.Laws.{NoZeroDivisors, HasInverses, InverseOfInverts};
ghost use Rattle.git_field.specs.Prime.{IsPrime};

use std::marker::Model;

/// The prime: numbers are counted modulo this one.
pub const MODULUS: u16 = 32003;

/// The same number, wide enough for a product of two others.
const WIDE_MODULUS: u32 = 32003;

/// A number modulo `MODULUS`, kept as its rest from 0 to 32002.
#[derive(Clone, Copy, Debug, PartialEq, Eq)]
pub struct Fp {
    rest: u16,
}

impl Model for Fp {
    ghost use Rattle.std.specs.Prelude.{ℕ, ◌<◌};

    ghost Value = { ℕ };

    ghost view = { λ a. a.rest };

    ghost invariant = { λ a. a.rest < 32003 };

    ghost inverse = { λ n. record { rest = n } };
}

impl Fp {
    /// The number with this rest, or `None` where it is no rest.
    pub fn new(v: u16) -> Option<Fp>
        ensures none { IsNone result ↔ (MODULUS ≤ v) }
        ensures some { IfSome result (λ f. f ≡ v) }
    {
        if v < MODULUS {
            Some(Fp { rest: v })
        } else {
            None
        }
    }

    /// The rest of an integer, which is never negative.
    pub fn reduce(v: i128) -> Fp
        ensures { result ≡ unsigned_abs (int_rem_euclid v (pos MODULUS)) }
    {
        Fp {
            rest: v.rem_euclid(i128::from(MODULUS)) as u16,
        }
    }

    /// The rest from 0 to 32002.
    pub fn value(self) -> u16
        ensures same { result ≡ self }
        ensures below { result < MODULUS }
    {
        self.rest
    }

    /// The representative from -16001 to 16001.
    pub fn signed(self) -> i32
        ensures { result ≡ signed_of self }
    {
        if self.rest <= 16001 {
            i32::from(self.rest)
        } else {
            i32::from(self.rest) - i32::from(MODULUS)
        }
    }

    /// The sum.
    pub fn add(self, o: Fp) -> Fp
        ensures { result ≡ (self + o) % MODULUS }
    {
        Fp::rest_of(u32::from(self.rest) + u32::from(o.rest))
    }

    /// The difference.
    pub fn sub(self, o: Fp) -> Fp
        ensures { result ≡ (self + (MODULUS - o)) % MODULUS }
    {
        Fp::rest_of(u32::from(self.rest) + u32::from(MODULUS - o.rest))
    }

    /// The negative.
    pub fn neg(self) -> Fp
        ensures { result ≡ (MODULUS - self) % MODULUS }
    {
        Fp::rest_of(u32::from(MODULUS - self.rest))
    }

    /// The product.
    pub fn mul(self, o: Fp) -> Fp
        ensures { result ≡ (self * o) % MODULUS }
    {
        Fp::rest_of(u32::from(self.rest) * u32::from(o.rest))
    }

    /// The number whose product with this one is 1, or `None` at 0, which has none.
    pub fn inverse(self) -> Option<Fp>
        ensures none { IsNone result ↔ (self ≡ 0) }
        ensures some { IfSome result (λ i. (self * i) % MODULUS ≡ 1) }
    {
        if self.rest == 0 {
            return None;
        }
        let mut left = u32::from(self.rest);
        let mut factor: u32 = 1;
        while left > 1 {
            factor = factor * (WIDE_MODULUS - WIDE_MODULUS / left) % WIDE_MODULUS;
            left = WIDE_MODULUS % left;
        }
        Some(Fp::rest_of(factor))
    }

    /// The number with the rest of `n`.
    fn rest_of(n: u32) -> Fp
        ensures { result ≡ n % MODULUS }
    {
        Fp {
            rest: (n % WIDE_MODULUS) as u16,
        }
    }
}

/// 32003 is a prime number.
pub fn modulus_is_prime()
    ensures { IsPrime MODULUS }
{}

/// A product of numbers other than 0 is other than 0.
pub fn no_zero_divisors()
    ensures { NoZeroDivisors }
{}

/// Each number other than 0 has an inverse.
pub fn has_inverses()
    ensures { HasInverses }
{}

/// The inverse that definitions name is one: its product with the number is 1.
pub fn inverse_of_inverts()
    ensures { InverseOfInverts }
{}

#[cfg(test)]
mod tests;
