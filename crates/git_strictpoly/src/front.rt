//! The bytes that are still to be read, step by step.
ghost use Rattle.std.specs.Prelude.{◌≡◌, ◌≤◌, ◌<◌, ◌^◌, ◌+◌, length, IfOk, List, ℕ, ◌∷◌};
ghost use Rattle.git_lines.specs.Reading.{Gives};
ghost use Rattle.git_algebra.specs.Order.{rank};
ghost use Rattle.git_strictpoly.specs.Strict;
ghost use Rattle.git_strictpoly.specs.Code.{GivesProduct};

use crate::limits::{LARGEST_SIZE, POWER_STEPS, TEXT_DEGREE};
use git_field::{Fp, MODULUS};
use git_limits::COLUMNS;
use git_lines::{FormKind, natural_once_of, value_of};
use git_mono::{DegRevLex, Mono, MonomialOrder};
use std::marker::Model;

/// What is left of the bytes of a polynomial.
#[derive(Drop)]
pub(crate) struct Front<'a> {
    bytes: &'a [u8],
}

impl<'a> Model for Front<'a> {
    ghost use Rattle.std.specs.Prelude.{List, ℕ};

    ghost Value = { List ℕ };

    ghost view = { λ f. f.bytes.now };
}

/// A power of a variable: its place and its exponent.
#[derive(Clone, Copy, Debug)]
pub(crate) struct Power {
    pub(crate) place: usize,
    pub(crate) exponent: u64,
}

/// A monomial with a size.
#[derive(Clone, Copy, Debug)]
pub(crate) struct SizedTerm {
    pub(crate) mono: Mono,
    pub(crate) size: u64,
}

/// A monomial with a number.
#[derive(Clone, Copy, Debug)]
pub(crate) struct Term {
    pub(crate) mono: Mono,
    pub(crate) number: Fp,
}

/// How many bytes in front are digits.
fn digit_count(bytes: &[u8]) -> usize
    ensures within { result ≤ length bytes.now }
    ensures front { Rattle.std.specs.Prelude.take result bytes.now ≡ Rattle.git_strictpoly.specs.Strict.digits_front bytes.now }
    ensures after { Rattle.std.specs.Prelude.drop result bytes.now ≡ Rattle.git_strictpoly.specs.Strict.after_digits bytes.now }
{
    let mut count = 0;
    while count < bytes.len() && bytes[count].is_ascii_digit() {
        count += 1;
    }
    count
}

impl<'a> Front<'a> {
    /// All bytes.
    pub(crate) fn new(bytes: &'a [u8]) -> Self
        ensures { result ≡ bytes.now }
    {
        Front { bytes }
    }

    /// How many bytes are left.
    pub(crate) fn len(&self) -> usize
        ensures { result ≡ length self.now }
    {
        self.bytes.len()
    }

    /// Whether the first byte is this one.
    pub(crate) fn begins(&self, byte: u8) -> bool
        ensures { result ≡ Rattle.git_strictpoly.specs.Strict.begins byte self.now }
    {
        match self.bytes {
            [] => false,
            [first, ..] => *first == byte,
        }
    }

    /// Whether the first byte is a digit.
    fn starts_digit(&self) -> bool
        ensures { result ≡ Rattle.git_strictpoly.specs.Strict.starts_digit self.now }
    {
        match self.bytes {
            [] => false,
            [first, ..] => first.is_ascii_digit(),
        }
    }

    /// Leaves out the first byte.
    pub(crate) fn skip(&mut self)
        ensures { self.new ≡ Rattle.git_strictpoly.specs.Strict.after_first self.old }
    {
        if let [_, rest @ ..] = self.bytes {
            self.bytes = rest;
        }
    }

    /// This byte.
    fn byte(&mut self, byte: u8) -> Result<(), FormKind>
        ensures { Gives (λ x. self.new) result (Rattle.git_strictpoly.specs.Strict.byte_front byte self.old) }
    {
        if !self.begins(byte) {
            return Err(FormKind::Syntax);
        }
        self.skip();
        Ok(())
    }

    /// The digits in front.
    fn digits(&mut self) -> &'a [u8]
        ensures front { result.now ≡ Rattle.git_strictpoly.specs.Strict.digits_front self.old }
        ensures after { self.new ≡ Rattle.git_strictpoly.specs.Strict.after_digits self.old }
    {
        let bytes = self.bytes;
        let count = digit_count(bytes);
        self.bytes = &bytes[count..];
        &bytes[..count]
    }

    /// A number of at most `limit` digits, from `least` on.
    #[tactic(auto, unfolding(crate::specs::Strict::number_front))]
    fn number(&mut self, limit: usize, least: u64) -> Result<u64, FormKind>
        ensures reads { Gives (λ x. x) result (Rattle.git_strictpoly.specs.Strict.number_front limit least self.old) }
        ensures after { self.new ≡ Rattle.git_strictpoly.specs.Strict.after_digits self.old }
        ensures small { IfOk result (λ x. x < 10 ^ 18) }
        ensures least { IfOk result (λ x. least ≤ x) }
    {
        let digits = self.digits();
        let Some(number) = natural_once_of(digits) else {
            return Err(FormKind::Syntax);
        };
        if digits.len() > limit || number < least {
            return Err(FormKind::Syntax);
        }
        Ok(number)
    }

    /// An index from 1 to `r`.
    #[tactic(auto, unfolding(crate::specs::Strict::index_front))]
    fn index(&mut self, r: usize) -> Result<usize, FormKind>
        ensures reads { Gives (λ x. x) result (Rattle.git_strictpoly.specs.Strict.index_front r self.old) }
        ensures after { self.new ≡ Rattle.git_strictpoly.specs.Strict.after_digits self.old }
        ensures within { IfOk result (λ x. x ≤ r) }
    {
        let zero = self.begins(b'0');
        let digits = self.digits();
        if digits.is_empty() || zero {
            return Err(FormKind::Syntax);
        }
        if digits.len() > 4 || value_of(digits) > r as u64 {
            return Err(FormKind::Range);
        }
        Ok(value_of(digits) as usize)
    }

    /// The place of T(1) to T(r).
    #[tactic(auto, unfolding(crate::specs::Strict::bracket_front))]
    fn bracket(&mut self, r: usize) -> Result<usize, FormKind>
        ensures reads { Gives (λ x. (x, self.new)) result (Rattle.git_strictpoly.specs.Strict.bracket_front r self.old) }
        ensures within { IfOk result (λ x. x ≤ r) }
    {
        self.byte(b'T')?;
        self.byte(b'(')?;
        let index = self.index(r)?;
        self.byte(b')')?;
        Ok(index.saturating_sub(1))
    }

    /// The place of a variable.
    fn variable(&mut self, r: usize) -> Result<usize, FormKind>
        requires { r ≤ COLUMNS }
        ensures reads { Gives (λ x. (x, self.new)) result (Rattle.git_strictpoly.specs.Strict.variable_front r self.old) }
        ensures within { IfOk result (λ x. x ≤ 16) }
    {
        if self.begins(b'y') {
            self.skip();
            return Ok(16);
        }
        self.bracket(r)
    }

    /// `^` and an exponent.
    #[tactic(auto, unfolding(crate::specs::Strict::caret_front))]
    fn caret(&mut self) -> Result<u64, FormKind>
        ensures reads { Gives (λ x. (x, self.new)) result (Rattle.git_strictpoly.specs.Strict.caret_front self.old) }
        ensures small { IfOk result (λ x. x < 10 ^ 18) }
    {
        self.number(8, 2)
    }

    /// `^` and an exponent, or nothing.
    fn exponent(&mut self) -> Result<u64, FormKind>
        ensures reads { Gives (λ x. (x, self.new)) result (Rattle.git_strictpoly.specs.Strict.exponent_front self.old) }
        ensures small { IfOk result (λ x. x < 10 ^ 18) }
    {
        if self.begins(b'^') {
            self.skip();
            return self.caret();
        }
        Ok(1)
    }

    /// A power of a variable.
    #[tactic(auto, unfolding(crate::specs::Strict::power_front))]
    fn power(&mut self, r: usize, low: usize, degree: u64) -> Result<Power, FormKind>
        requires variables { r ≤ COLUMNS }
        requires degree { degree ≤ TEXT_DEGREE }
        ensures reads { Gives (λ x. ((x.place, x.exponent), self.new)) result (Rattle.git_strictpoly.specs.Strict.power_front r low degree self.old) }
        ensures place { IfOk result (λ x. x.place ≤ 16) }
        ensures fits { IfOk result (λ x. degree + x.exponent ≤ TEXT_DEGREE) }
    {
        let place = self.variable(r)?;
        if place < low {
            return Err(FormKind::Syntax);
        }
        let exponent = self.exponent()?;
        if degree + exponent > TEXT_DEGREE {
            return Err(FormKind::Range);
        }
        Ok(Power { place, exponent })
    }

    /// The product of powers, each after a star.
    #[tactic(auto, unfolding(crate::specs::Strict::powers_after))]
    fn powers(&mut self, left: usize, r: usize, low: usize, degree: u64) -> Result<Mono, FormKind>
        requires variables { r ≤ COLUMNS }
        requires degree { degree ≤ TEXT_DEGREE }
        requires low { low ≤ 17 }
        ensures { GivesProduct result self.new (Rattle.git_strictpoly.specs.Strict.powers_after left r low degree self.old) }
    {
        if left == 0 {
            return Err(FormKind::Syntax);
        }
        if !self.begins(b'*') {
            return Ok(Mono::one());
        }
        self.skip();
        let power = self.power(r, low, degree)?;
        let others = self.powers(left - 1, r, power.place + 1, degree + power.exponent)?;
        let first = Mono::power(power.place, power.exponent as u32).unwrap();
        Ok(first.times(&others).unwrap())
    }

    /// A size and powers after it.
    #[tactic(auto, unfolding(crate::specs::Strict::sized_front))]
    fn sized(&mut self, r: usize) -> Result<SizedTerm, FormKind>
        requires { r ≤ COLUMNS }
        ensures reads { Gives (λ x. ((x.mono, x.size), self.new)) result (Rattle.git_strictpoly.specs.Strict.sized_front r self.old) }
        ensures size { IfOk result (λ x. x.size ≤ LARGEST_SIZE) }
        ensures some { IfOk result (λ x. 0 < x.size) }
    {
        let size = self.number(5, 1)?;
        if size > LARGEST_SIZE || (self.begins(b'*') && size < 2) {
            return Err(FormKind::Syntax);
        }
        let mono = self.powers(POWER_STEPS, r, 0, 0)?;
        Ok(SizedTerm { mono, size })
    }

    /// Powers alone.
    #[tactic(auto, unfolding(crate::specs::Strict::unsized_front))]
    fn sizeless(&mut self, r: usize) -> Result<SizedTerm, FormKind>
        requires { r ≤ COLUMNS }
        ensures reads { Gives (λ x. ((x.mono, x.size), self.new)) result (Rattle.git_strictpoly.specs.Strict.unsized_front r self.old) }
        ensures size { IfOk result (λ x. x.size ≤ LARGEST_SIZE) }
        ensures some { IfOk result (λ x. 0 < x.size) }
    {
        let power = self.power(r, 0, 0)?;
        let others = self.powers(POWER_STEPS, r, power.place + 1, power.exponent)?;
        let first = Mono::power(power.place, power.exponent as u32).unwrap();
        let mono = first.times(&others).unwrap();
        Ok(SizedTerm { mono, size: 1 })
    }

    /// A monomial and a size.
    pub(crate) fn term(&mut self, r: usize) -> Result<SizedTerm, FormKind>
        requires { r ≤ COLUMNS }
        ensures reads { Gives (λ x. ((x.mono, x.size), self.new)) result (Rattle.git_strictpoly.specs.Strict.term_front r self.old) }
        ensures size { IfOk result (λ x. x.size ≤ LARGEST_SIZE) }
        ensures some { IfOk result (λ x. 0 < x.size) }
    {
        if self.starts_digit() {
            return self.sized(r);
        }
        self.sizeless(r)
    }

    /// A sign and a term, below the one before.
    #[tactic(auto, unfolding(crate::specs::Strict::later_term))]
    pub(crate) fn later_term(&mut self, r: usize, before: &Mono) -> Result<Term, FormKind>
        requires { r ≤ COLUMNS }
        ensures reads { Gives (λ x. ((x.mono, x.number), self.new)) result (Rattle.git_strictpoly.specs.Strict.later_term r before.now self.old) }
        ensures below { IfOk result (λ x. rank x.mono < rank before.now) }
        ensures some { IfOk result (λ x. 0 < x.number) }
        ensures small { IfOk result (λ x. x.number < MODULUS) }
    {
        let minus = self.begins(b'-');
        if !self.begins(b'+') && !minus {
            return Err(FormKind::Syntax);
        }
        self.skip();
        let term = self.term(r)?;
        if !DegRevLex.compare(&term.mono, before).is_lt() {
            return Err(FormKind::Syntax);
        }
        let number = signed(minus, term.size);
        Ok(Term {
            mono: term.mono,
            number,
        })
    }
}

/// A size after a sign.
pub(crate) fn signed(negative: bool, size: u64) -> Fp
    requires some { 0 < size }
    requires high { size ≤ LARGEST_SIZE }
    ensures same { result ≡ Rattle.git_strictpoly.specs.Strict.signed negative size }
    ensures some { 0 < result }
    ensures small { result < MODULUS }
{
    if negative {
        return Fp::new(MODULUS - size as u16).unwrap();
    }
    Fp::new(size as u16).unwrap()
}
