//! Lists of terms in descending order: the work behind the operations of polynomials.

ghost use Rattle.std.specs.Prelude.{◌≡◌, ◌≢◌, ◌+◌, ◌<◌, ◌≤◌, ◌++◌, ◌↔◌, All, IfOk, OnOk, IsTrue, [], filter, length};
ghost use Rattle.git_algebra.specs.Exponents.{one, degree, in_face};
ghost use Rattle.git_algebra.specs.Order.{rank};
ghost use Rattle.git_algebra.specs.Sums.{shift, product};
ghost use Rattle.git_algebra.specs.Polynomials.{Proper, entry};
ghost use Rattle.git_algebra.specs.Operations.{greatest_degree};
ghost use Rattle.git_poly.specs.Terms.{sum_of, IsForm, IsFirstNotAbove, AreBoundsOfFirst};

use crate::term::Term;
use git_base::NoMemory;
use git_bits::has_bit;
use git_field::{Fp, MODULUS};
use git_mono::{DegRevLex, MONO_DEGREE, Mono, MonomialOrder};
use std::alloc::Global;
use std::cmp::Ordering;

/// The sum of two lists.
pub fn merged(alloc: Global, a: &[Term], b: &[Term]) -> Result<Vec<Term>, NoMemory>
    requires left { Proper (sum_of a.now) }
    requires right { Proper (sum_of b.now) }
    ensures { IfOk result (λ v. IsForm (sum_of v.items) (sum_of a.now ++ sum_of b.now)) }
{
    let mut out = Vec::with_capacity(alloc, a.len().saturating_add(b.len()))?;
    let mut i = 0;
    let mut j = 0;
    'merging: while i < a.len() && j < b.len() {
        let x = a[i];
        let y = b[j];
        match DegRevLex.compare(&x.mono, &y.mono) {
            Ordering::Greater => {
                out.push(x)?;
                i += 1;
            }
            Ordering::Less => {
                out.push(y)?;
                j += 1;
            }
            Ordering::Equal => {
                push_term(&mut out, y.mono, x.number.add(y.number))?;
                i += 1;
                j += 1;
            }
        }
    }
    out.extend_from_slice(&a[i..])?;
    out.extend_from_slice(&b[j..])?;
    Ok(out)
}

/// A list times a number.
pub fn scaled(alloc: Global, c: Fp, a: &[Term]) -> Result<Vec<Term>, NoMemory>
    requires some { c ≢ 0 }
    requires below { c < MODULUS }
    requires proper { Proper (sum_of a.now) }
    ensures { IfOk result (λ v. IsForm (sum_of v.items) (shift one c (sum_of a.now))) }
{
    let mut out = Vec::with_capacity(alloc, a.len())?;
    for t in a {
        out.push(Term {
            mono: t.mono,
            number: c.mul(t.number),
        })?;
    }
    Ok(out)
}

/// A list times a term.
pub fn shifted(alloc: Global, m: &Mono, c: Fp, a: &[Term]) -> Result<Vec<Term>, NoMemory>
    requires some { c ≢ 0 }
    requires below { c < MODULUS }
    requires proper { Proper (sum_of a.now) }
    requires degrees { degree m.now + greatest_degree (sum_of a.now) ≤ MONO_DEGREE }
    ensures { IfOk result (λ v. IsForm (sum_of v.items) (shift m.now c (sum_of a.now))) }
{
    let mut out = Vec::with_capacity(alloc, a.len())?;
    for t in a {
        out.push(Term {
            mono: m.times(&t.mono).unwrap(),
            number: c.mul(t.number),
        })?;
    }
    Ok(out)
}

/// The sum of a list and a term times another. The first list is gone through once, and copied in
/// pieces.
pub fn merged_with_multiple(
    alloc: Global,
    a: &[Term],
    m: &Mono,
    c: Fp,
    b: &[Term],
) -> Result<Vec<Term>, NoMemory>
    requires some { c ≢ 0 }
    requires below { c < MODULUS }
    requires left { Proper (sum_of a.now) }
    requires right { Proper (sum_of b.now) }
    requires degrees { degree m.now + greatest_degree (sum_of b.now) ≤ MONO_DEGREE }
    ensures { IfOk result (λ v. IsForm (sum_of v.items) (sum_of a.now ++ shift m.now c (sum_of b.now))) }
{
    let mut out = Vec::with_capacity(alloc, a.len().saturating_add(b.len()))?;
    let mut i = 0;
    for t in b {
        let mono = m.times(&t.mono).unwrap();
        let number = c.mul(t.number);
        let next = first_not_above(a, i, &mono);
        out.extend_from_slice(&a[i..next])?;
        i = next;
        if i < a.len() && a[i].mono == mono {
            push_term(&mut out, mono, a[i].number.add(number))?;
            i += 1;
        } else {
            push_term(&mut out, mono, number)?;
        }
    }
    out.extend_from_slice(&a[i..])?;
    Ok(out)
}

/// The first place from `start` on whose monomial isn't above `m`, or the length. The steps of the
/// search double, and the last of them is halved.
fn first_not_above(a: &[Term], start: usize, m: &Mono) -> usize
    requires within { start ≤ length a.now }
    requires proper { Proper (sum_of a.now) }
    ensures { IsFirstNotAbove a.now start m.now result }
{
    let (low, high) = bounds_by_doubling(a, start, m);
    first_by_halving(a, low, high, m)
}

/// Two places between which the first one from `start` on is whose monomial isn't above `m`.
fn bounds_by_doubling(a: &[Term], start: usize, m: &Mono) -> (usize, usize)
    requires within { start ≤ length a.now }
    requires proper { Proper (sum_of a.now) }
    ensures { AreBoundsOfFirst a.now start m.now result.0 result.1 }
{
    let mut low = start;
    let mut step = 1;
    while step <= a.len() - low && is_above(&a[low + step - 1], m) {
        low += step;
        step *= 2;
    }
    (low, low + (step - 1).min(a.len() - low))
}

/// The first place from `low` on whose monomial isn't above `m`, where `high` is such a place or the
/// length.
fn first_by_halving(a: &[Term], low: usize, high: usize, m: &Mono) -> usize
    requires bounds { AreBoundsOfFirst a.now low m.now low high }
    requires proper { Proper (sum_of a.now) }
    ensures { IsFirstNotAbove a.now low m.now result }
{
    let mut first = low;
    let mut last = high;
    while first < last {
        let middle = first + (last - first) / 2;
        if is_above(&a[middle], m) {
            first = middle + 1;
        } else {
            last = middle;
        }
    }
    first
}

/// Whether the monomial of a term is above another.
fn is_above(t: &Term, m: &Mono) -> bool
    ensures { IsTrue result ↔ (rank m.now < rank t.now.mono) }
{
    DegRevLex.compare(&t.mono, m) == Ordering::Greater
}

/// A term at the end, left out where its number is 0.
fn push_term(out: &mut Vec<Term>, mono: Mono, number: Fp) -> Result<(), NoMemory>
    ensures { OnOk result (sum_of out.new.items ≡ sum_of out.old.items ++ entry mono number []) }
{
    if number.value() != 0 {
        out.push(Term { mono, number })?;
    }
    Ok(())
}

/// The product of two lists. The shorter one is split.
pub fn product_of(alloc: Global, a: &[Term], b: &[Term]) -> Result<Vec<Term>, NoMemory>
    requires left { Proper (sum_of a.now) }
    requires right { Proper (sum_of b.now) }
    requires degrees { greatest_degree (sum_of a.now) + greatest_degree (sum_of b.now) ≤ MONO_DEGREE }
    ensures { IfOk result (λ v. IsForm (sum_of v.items) (product (sum_of a.now) (sum_of b.now))) }
{
    if a.len() <= b.len() {
        product_by_halves(alloc, a, b)
    } else {
        product_by_halves(alloc, b, a)
    }
}

/// The product of two lists: that of each half of the first, and the sum of both.
fn product_by_halves(alloc: Global, a: &[Term], b: &[Term]) -> Result<Vec<Term>, NoMemory>
    requires left { Proper (sum_of a.now) }
    requires right { Proper (sum_of b.now) }
    requires degrees { greatest_degree (sum_of a.now) + greatest_degree (sum_of b.now) ≤ MONO_DEGREE }
    ensures { IfOk result (λ v. IsForm (sum_of v.items) (product (sum_of a.now) (sum_of b.now))) }
{
    if a.is_empty() {
        return Ok(Vec::new(alloc));
    }
    if a.len() == 1 {
        return shifted(alloc, &a[0].mono, a[0].number, b);
    }
    let half = a.len() / 2;
    let front = product_by_halves(alloc, &a[..half], b)?;
    let back = product_by_halves(alloc, &a[half..], b)?;
    merged(alloc, &front, &back)
}

/// The terms of a list whose variables are all in a face.
pub fn kept(alloc: Global, mask: u32, a: &[Term]) -> Result<Vec<Term>, NoMemory>
    requires { Proper (sum_of a.now) }
    ensures { IfOk result (λ v. IsForm (sum_of v.items) (filter (λ t. in_face mask t.0) (sum_of a.now))) }
{
    let mut out = Vec::new(alloc);
    for t in a {
        if is_in_face(mask, &t.mono) {
            out.push(*t)?;
        }
    }
    Ok(out)
}

/// Whether each variable of each monomial of a list is in a face. Bit `i` of the mask is for the variable at place `i`, and
/// bit 16 for the extra variable.
pub(crate) fn are_in_face(mask: u32, a: &[Term]) -> bool
    ensures { IsTrue result ↔ All (λ t. IsTrue (in_face mask t.0)) (sum_of a.now) }
{
    for t in a {
        if !is_in_face(mask, &t.mono) {
            return false;
        }
    }
    true
}

/// Whether each variable of a monomial is in a face.
fn is_in_face(mask: u32, m: &Mono) -> bool
    ensures { result ≡ in_face mask m.now }
{
    for i in 0..17 {
        if m.exponent(i) != 0 && !has_bit(u64::from(mask), i as u32) {
            return false;
        }
    }
    true
}
