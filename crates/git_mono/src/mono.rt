//! Monomials: seventeen exponents, those of T(1) to T(16) and last that of the extra variable y.

ghost use Rattle.std.specs.Prelude.{◌≡◌, ◌+◌, ◌<◌, ◌≤◌, ℕ, IsNone, IfSome, IsTrue, ◌↔◌};
ghost use Rattle.git_algebra.specs.Exponents.{Exponents, exponent, one, variable_power, times, lcm, quotient, degree, Divides};

use std::marker::Model;

/// The greatest total degree of a monomial, 2^26.
pub const MONO_DEGREE: u32 = 67_108_864;

/// A monomial of total degree at most [`MONO_DEGREE`].
#[derive(Clone, Copy, Debug)]
pub struct Mono {
    exponents: [u32; 17],
    degree: u32,
}

impl Model for Mono {
    ghost use Rattle.std.specs.Prelude.{◌≡◌, ◌≤◌, length};
    ghost use Rattle.std.specs.List.{sum};
    ghost use Rattle.git_algebra.specs.Exponents.{Exponents, exponents_code, exponents_of};
    ghost use Rattle.git_algebra.proofs.Monomials.{fields_from_value};

    ghost Value = { Exponents };

    ghost coded = { exponents_code };

    ghost view = { λ a. exponents_of a.exponents };

    ghost invariant = { λ a. (length a.exponents ≡ 17) × (a.degree ≡ sum a.exponents) × (a.degree ≤ 67108864) };

    ghost inverse = { λ m. record { exponents = m.list; degree = sum m.list } };

    ghost inverse_ok = { λ a h. fields_from_value (λ (xs : _) (d : _). record { exponents = xs; degree = d }) a.exponents a.degree h.0 h.1 };
}

impl Mono {
    /// The monomial 1.
    pub fn one() -> Mono
        ensures { result ≡ one }
    {
        Mono {
            exponents: [0; 17],
            degree: 0,
        }
    }

    /// The power `e` of the variable at place `i`, or `None` where `e` is above [`MONO_DEGREE`].
    pub fn power(i: usize, e: u32) -> Option<Mono>
        requires { i < 17 }
        ensures none { IsNone result ↔ (MONO_DEGREE < e) }
        ensures some { IfSome result (λ m. m ≡ variable_power i e) }
    {
        if e > MONO_DEGREE {
            return None;
        }
        let mut exponents = [0; 17];
        exponents[i] = e;
        Some(Mono {
            exponents,
            degree: e,
        })
    }

    /// The exponent of the variable at place `i`.
    pub fn exponent(&self, i: usize) -> u32
        requires { i < 17 }
        ensures { result ≡ exponent self.now i }
    {
        self.exponents[i]
    }

    /// The total degree.
    pub fn degree(&self) -> u32
        ensures same { result ≡ degree self.now }
        ensures limit { result ≤ MONO_DEGREE }
    {
        self.degree
    }

    /// The product, or `None` where its total degree is above [`MONO_DEGREE`].
    pub fn times(&self, o: &Mono) -> Option<Mono>
        ensures none { IsNone result ↔ (MONO_DEGREE < degree (times self.now o.now)) }
        ensures some { IfSome result (λ m. m ≡ times self.now o.now) }
    {
        let degree = self.degree + o.degree;
        if degree > MONO_DEGREE {
            return None;
        }
        let mut exponents = [0; 17];
        for i in 0..17 {
            exponents[i] = self.exponents[i] + o.exponents[i];
        }
        Some(Mono { exponents, degree })
    }

    /// The least common multiple, or `None` where its total degree is above [`MONO_DEGREE`].
    pub fn lcm(&self, o: &Mono) -> Option<Mono>
        ensures none { IsNone result ↔ (MONO_DEGREE < degree (lcm self.now o.now)) }
        ensures some { IfSome result (λ m. m ≡ lcm self.now o.now) }
    {
        let mut exponents = [0; 17];
        for i in 0..17 {
            exponents[i] = self.exponents[i].max(o.exponents[i]);
        }
        let degree: u32 = exponents.iter().sum();
        if degree > MONO_DEGREE {
            return None;
        }
        Some(Mono { exponents, degree })
    }

    /// Whether this divides another.
    pub fn divides(&self, o: &Mono) -> bool
        ensures { IsTrue result ↔ Divides self.now o.now }
    {
        for i in 0..17 {
            if self.exponents[i] > o.exponents[i] {
                return false;
            }
        }
        true
    }

    /// This divided by a monomial that divides it.
    pub fn quotient(&self, by: &Mono) -> Mono
        requires { Divides by.now self.now }
        ensures { result ≡ quotient self.now by.now }
    {
        let mut exponents = [0; 17];
        for i in 0..17 {
            exponents[i] = self.exponents[i] - by.exponents[i];
        }
        Mono {
            exponents,
            degree: self.degree - by.degree,
        }
    }
}
