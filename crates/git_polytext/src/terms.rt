//! The terms of a line.
ghost use Rattle.std.specs.Prelude.{◌≡◌, ◌+◌, ◌<◌, ◌≤◌, ◌^◌, ℕ, IfOk, length};
ghost use Rattle.git_algebra.specs.Exponents.{exponent};
ghost use Rattle.git_algebra.specs.Polynomials.{normal};
ghost use Rattle.git_lines.specs.Reading.{Gives};
ghost use Rattle.git_polytext.specs.Pieces;
ghost use Rattle.git_polytext.specs.Reading;
ghost use Rattle.git_polytext.specs.Reading.{GivesUnlessFull, within_count};
ghost use Rattle.git_polytext.specs.Terms.{after_sign};
ghost use Rattle.git_polytext.specs.Views.{term_of, sum_of};

use crate::fault::PolynomialFault;
use crate::signs::{fault_at, no_sign, number_sign, power_signs};
use git_base::NoMemory;
use git_field::Fp;
use git_limits::{COLUMNS, EXPONENT, TERMS};
use git_lines::{Cursor, FormKind, Joining, Part, Parts, Separator, Token, are_digits};
use git_mono::Mono;
use git_poly::Poly;
use std::alloc::Global;

/// A monomial with its number.
#[derive(Clone, Copy, Debug)]
pub(crate) struct Term {
    pub(crate) mono: Mono,
    pub(crate) number: Fp,
}

/// The first factor of a term: the column of its first byte, its monomial and its number.
#[derive(Drop)]
struct Factor {
    start: u32,
    mono: Mono,
    number: u64,
}

/// No term begins here where there are enough.
fn check_count(full: bool, line: u32, token: &Token<'_>) -> Result<(), PolynomialFault>
    ensures { Gives (λ x. tt) result (within_count full line (record { column = token.now.column; text = token.now.text.now })) }
{
    let begins = are_digits(token.text)
        || token.text == b"T(".as_slice()
        || token.text == b"T".as_slice();
    if full && begins {
        return Err(fault_at(line, token.column, FormKind::Range));
    }
    Ok(())
}

/// The first factor of a term; full where the term is one too many.
#[tactic(auto, unfolding(crate::specs::Reading::first_factor))]
fn first_factor(full: bool, r: usize, signs: &mut Cursor<'_>) -> Result<Factor, PolynomialFault>
    requires { r ≤ COLUMNS }
    ensures reads { Gives (λ x. (x.start, (x.mono, x.number))) result (Rattle.git_polytext.specs.Reading.first_factor full r signs.old) }
    ensures small { IfOk result (λ x. (i : ℕ) → exponent x.mono i ≤ EXPONENT) }
    ensures few { IfOk result (λ x. x.number < 10 ^ 18) }
{
    let line = signs.line();
    let Some((token, _)) = signs.peek_token() else {
        return Err(fault_at(line, signs.past(), FormKind::Syntax));
    };
    let start = token.column;
    check_count(full, line, &token)?;
    let one = Mono::one();
    if are_digits(token.text) {
        let number = number_sign(signs, 18)?;
        no_sign(signs)?;
        return Ok(Factor {
            start,
            mono: one,
            number,
        });
    }
    let mono = power_signs(r, start, &one, signs)?;
    Ok(Factor {
        start,
        mono,
        number: 1,
    })
}

/// The further factors of a term, to its monomial so far.
fn power_parts(
    r: usize,
    line: u32,
    start: u32,
    begun: Mono,
    parts: &mut Parts<'_>,
) -> Result<Mono, PolynomialFault>
    requires variables { r ≤ COLUMNS }
    requires small { (i : ℕ) → exponent begun i ≤ EXPONENT }
    ensures { Gives (λ x. x) result (Rattle.git_polytext.specs.Reading.power_parts r line start begun parts.old) }
{
    let mut mono = begun;
    while let Some(part) = parts.next_part() {
        let mut signs = Cursor::new(Joining::Signs, line, part.column, part.text);
        mono = power_signs(r, start, &mono, &mut signs)?;
    }
    Ok(mono)
}

/// A number after a sign, if any.
fn number_after(sign: Option<u8>, number: u64) -> Fp
    ensures { result ≡ after_sign sign number }
{
    let plus = Fp::reduce(i128::from(number));
    match sign {
        Some(b'-') => plus.neg(),
        _ => plus,
    }
}

/// A term, after so many others.
#[tactic(auto, unfolding(crate::specs::Reading::term_part))]
fn term_part(r: usize, line: u32, count: usize, part: &Part<'_>) -> Result<Term, PolynomialFault>
    requires { r ≤ COLUMNS }
    ensures { Gives term_of result (Rattle.git_polytext.specs.Reading.term_part r line count (record { separator = part.now.separator; column = part.now.column; text = part.now.text.now })) }
{
    let mut parts = Parts::new(Separator::Star, part.column, part.text);
    let Some(first) = parts.next_part() else {
        return Err(fault_at(line, 1, FormKind::Syntax));
    };
    let mut signs = Cursor::new(Joining::Signs, line, first.column, first.text);
    let factor = first_factor(count >= TERMS, r, &mut signs)?;
    let mono = power_parts(r, line, factor.start, factor.mono, &mut parts)?;
    Ok(Term {
        mono,
        number: number_after(part.separator, factor.number),
    })
}

/// The parts of a line that are terms: nothing need stand before the first sign.
pub(crate) fn pieces(content: &[u8]) -> Parts<'_>
    requires { 1 + length content.now < 2 ^ 32 }
    ensures { result ≡ Rattle.git_polytext.specs.Pieces.pieces content.now }
{
    let whole = Parts::new(Separator::PlusOrMinus, 1, content);
    let mut later = Parts::new(Separator::PlusOrMinus, 1, content);
    let Some(first) = later.next_part() else {
        return whole;
    };
    let signs = Cursor::new(Joining::Signs, 1, first.column, first.text);
    let Some(_) = signs.peek_token() else {
        if later.is_empty() {
            return whole;
        }
        return later;
    };
    whole
}

/// The terms of a line.
pub(crate) fn terms(
    alloc: Global,
    r: usize,
    line: u32,
    parts: &mut Parts<'_>,
) -> Result<Vec<Term>, PolynomialFault>
    requires { r ≤ COLUMNS }
    ensures { GivesUnlessFull (λ v. sum_of v.items) result (Rattle.git_polytext.specs.Reading.term_parts r line 0 parts.old) }
{
    let mut terms = Vec::new(alloc);
    while let Some(part) = parts.next_part() {
        let term = term_part(r, line, terms.as_slice().len(), &part)?;
        terms.push(term)?;
    }
    Ok(terms)
}

/// The sum of terms: that of each half, and the sum of both.
pub(crate) fn sum_of_terms(alloc: Global, terms: &[Term]) -> Result<Poly, NoMemory>
    ensures { IfOk result (λ p. p ≡ normal (sum_of terms.now)) }
{
    if terms.is_empty() {
        return Ok(Poly::zero(alloc));
    }
    if terms.len() == 1 {
        let only = terms[0];
        return Poly::term(alloc, only.mono, only.number);
    }
    let half = terms.len() / 2;
    let front = sum_of_terms(alloc, &terms[..half])?;
    let back = sum_of_terms(alloc, &terms[half..])?;
    front.add(alloc, &back)
}
