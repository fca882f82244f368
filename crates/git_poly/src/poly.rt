//! Polynomials.

ghost use Rattle.std.specs.Prelude.{◌≡◌, ◌≢◌, ◌+◌, ◌<◌, ◌≤◌, ◌↔◌, All, IsNone, IsTrue, IfOk, IfSome, OnErr, OnOk, Some, length, slice_get};
ghost use Rattle.git_algebra.specs.Exponents.{degree};
ghost use Rattle.git_algebra.specs.Order.{rank};
ghost use Rattle.git_algebra.specs.Sums.{coefficient};
ghost use Rattle.git_algebra.specs.Operations.{zero_polynomial, term_of, plus, minus, scaled as multiple, times_term, multiplied, restricted, IsInFace, lead_of, total_degree};
ghost use Rattle.git_poly.specs.Degrees.{AreGradedBy, IsHomogeneous, AreApart};

use crate::degrees::first_apart;
use crate::fault::PolyFault;
use crate::term::Term;
use crate::terms::{are_in_face, kept, merged, merged_with_multiple, product_of, scaled, shifted};
use git_base::NoMemory;
use git_field::Fp;
use git_grading::Grading;
use git_mono::{MONO_DEGREE, Mono};
use std::alloc::Global;
use std::marker::Model;

/// A polynomial: its terms in descending order of the monomials, none of them with the number 0.
#[derive(Drop, Debug)]
pub struct Poly {
    terms: Vec<Term>,
}

impl Model for Poly {
    ghost use Rattle.git_algebra.specs.Polynomials.{Polynomial, Proper, normal, polynomial_code};
    ghost use Rattle.git_poly.specs.Terms.{sum_of};

    ghost Value = { Polynomial };

    ghost coded = { polynomial_code };

    ghost view = { λ a. normal (sum_of a.terms.items) };

    ghost invariant = { λ a. Proper (sum_of a.terms.items) };
}

impl Poly {
    /// The polynomial 0. It takes no memory yet.
    pub fn zero(alloc: Global) -> Poly
        ensures { result ≡ zero_polynomial }
    {
        Poly {
            terms: Vec::new(alloc),
        }
    }

    /// A monomial times a number, which may be 0.
    pub fn term(alloc: Global, m: Mono, c: Fp) -> Result<Poly, NoMemory>
        ensures { IfOk result (λ p. p ≡ term_of m c) }
    {
        let mut terms = Vec::new(alloc);
        if c.value() != 0 {
            terms.push(Term { mono: m, number: c })?;
        }
        Ok(Poly { terms })
    }

    /// The greatest monomial with its number, or `None` at 0.
    pub fn lead(&self) -> Option<(Mono, Fp)>
        ensures none { IsNone result ↔ (self.now ≡ zero_polynomial) }
        ensures lead { result ≡ lead_of self.now }
    {
        let first = self.terms.first()?;
        Some((first.mono, first.number))
    }

    /// The number of a monomial, 0 where the polynomial lacks it.
    pub fn coefficient(&self, m: &Mono) -> Fp
        ensures { result ≡ coefficient self.now.terms m.now }
    {
        match self.terms.binary_search_by(|t| m.cmp(&t.mono)) {
            Ok(i) => self.terms[i].number,
            Err(_) => Fp::reduce(0),
        }
    }

    /// How many terms there are.
    pub fn term_count(&self) -> usize
        ensures { result ≡ length self.now.terms }
    {
        self.terms.len()
    }

    /// The term at a place in descending order.
    pub fn term_at(&self, i: usize) -> (Mono, Fp)
        requires { i < length self.now.terms }
        ensures { slice_get self.now.terms i ≡ Some result }
    {
        let term = self.terms[i];
        (term.mono, term.number)
    }

    /// The lead's monomial and the greatest monomial of another degree, or `None` where all monomials
    /// have one degree, as at 0. In each monomial the exponents are at most 64, and 0 where the grading
    /// has no column for the variable. It takes no memory.
    pub fn mixed(&self, g: &Grading) -> Option<(Mono, Mono)>
        requires { AreGradedBy g.now.columns self.now }
        ensures none { IsNone result ↔ IsHomogeneous g.now.k g.now.columns self.now }
        ensures some { IfSome result (λ pair. AreApart g.now.k g.now.columns self.now pair.0 pair.1) }
    {
        let lead = self.terms.first()?;
        let second = first_apart(g, &lead.mono, &self.terms)?;
        Some((lead.mono, second))
    }

    /// Another polynomial that is the same.
    pub fn copy(&self, alloc: Global) -> Result<Poly, NoMemory>
        ensures { IfOk result (λ p. p ≡ self.now) }
    {
        let mut terms = Vec::new(alloc);
        terms.extend_from_slice(&self.terms)?;
        Ok(Poly { terms })
    }

    /// The sum.
    pub fn add(&self, alloc: Global, o: &Poly) -> Result<Poly, NoMemory>
        ensures { IfOk result (λ p. p ≡ plus self.now o.now) }
    {
        let terms = merged(alloc, &self.terms, &o.terms)?;
        Ok(Poly { terms })
    }

    /// The difference.
    pub fn sub(&self, alloc: Global, o: &Poly) -> Result<Poly, NoMemory>
        ensures { IfOk result (λ p. p ≡ minus self.now o.now) }
    {
        let negative = scaled(alloc, Fp::reduce(-1), &o.terms)?;
        let terms = merged(alloc, &self.terms, &negative)?;
        Ok(Poly { terms })
    }

    /// This times a number.
    pub fn scale(&self, alloc: Global, c: Fp) -> Result<Poly, NoMemory>
        ensures { IfOk result (λ p. p ≡ multiple c self.now) }
    {
        if c.value() == 0 {
            return Ok(Poly::zero(alloc));
        }
        let terms = scaled(alloc, c, &self.terms)?;
        Ok(Poly { terms })
    }

    /// This with every variable outside a face set to 0, where the mask of the face has bit `i` for
    /// the variable at place `i`. The extra variable is outside every face.
    pub fn restrict(&self, alloc: Global, mask: u16) -> Result<Poly, NoMemory>
        ensures { IfOk result (λ p. p ≡ restricted mask self.now) }
    {
        let terms = kept(alloc, u32::from(mask), &self.terms)?;
        Ok(Poly { terms })
    }

    /// This times a term. `Degree` comes where both factors are nonzero and the sum of their total
    /// degrees is above `MONO_DEGREE`.
    pub fn times_term(&self, alloc: Global, m: &Mono, c: Fp) -> Result<Poly, PolyFault>
        ensures product { IfOk result (λ p. p ≡ times_term m.now c self.now) }
        ensures degree { (result ≡ Err PolyFault.Degree) ↔ ((c ≢ 0) × (self.now ≢ zero_polynomial) × (MONO_DEGREE < degree m.now + total_degree self.now)) }
    {
        if c.value() == 0 || self.is_zero() {
            return Ok(Poly::zero(alloc));
        }
        if m.degree() + self.total_degree() > MONO_DEGREE {
            return Err(PolyFault::Degree);
        }
        let terms = shifted(alloc, m, c, &self.terms)?;
        Ok(Poly { terms })
    }

    /// The product. `Degree` comes where both factors are nonzero and the sum of their total degrees
    /// is above `MONO_DEGREE`.
    pub fn times(&self, alloc: Global, o: &Poly) -> Result<Poly, PolyFault>
        ensures product { IfOk result (λ p. p ≡ multiplied self.now o.now) }
        ensures degree { (result ≡ Err PolyFault.Degree) ↔ ((self.now ≢ zero_polynomial) × (o.now ≢ zero_polynomial) × (MONO_DEGREE < total_degree self.now + total_degree o.now)) }
    {
        if self.is_zero() || o.is_zero() {
            return Ok(Poly::zero(alloc));
        }
        if self.total_degree() + o.total_degree() > MONO_DEGREE {
            return Err(PolyFault::Degree);
        }
        let terms = product_of(alloc, &self.terms, &o.terms)?;
        Ok(Poly { terms })
    }

    /// Whether each variable of each monomial is in a face, where bit `i` of the mask is for the variable at place `i`, and
    /// bit 16 for the extra variable.
    pub fn is_in_face(&self, mask: u32) -> bool
        ensures { IsTrue result ↔ IsInFace mask self.now }
    {
        are_in_face(mask, &self.terms)
    }

    /// This less a term times another, `self - c m g`, in one pass. `Degree` comes where both factors
    /// are nonzero and the sum of their total degrees is above `MONO_DEGREE`.
    pub fn sub_times(&self, alloc: Global, m: &Mono, c: Fp, g: &Poly) -> Result<Poly, PolyFault>
        ensures difference { IfOk result (λ p. p ≡ minus self.now (times_term m.now c g.now)) }
        ensures degree { (result ≡ Err PolyFault.Degree) ↔ ((c ≢ 0) × (g.now ≢ zero_polynomial) × (MONO_DEGREE < degree m.now + total_degree g.now)) }
    {
        if c.value() == 0 || g.is_zero() {
            return Ok(self.copy(alloc)?);
        }
        if m.degree() + g.total_degree() > MONO_DEGREE {
            return Err(PolyFault::Degree);
        }
        let terms = merged_with_multiple(alloc, &self.terms, m, c.neg(), &g.terms)?;
        Ok(Poly { terms })
    }

    /// Adds a term at the end, whose monomial is below each other one. Nothing changes where the
    /// number is 0.
    pub fn append(&mut self, m: Mono, c: Fp) -> Result<(), NoMemory>
        requires { All (λ t. rank m < rank t.0) self.old.terms }
        ensures sum { OnOk result (self.new ≡ plus self.old (term_of m c)) }
        ensures same { OnErr result (self.new ≡ self.old) }
    {
        if c.value() > 0 {
            self.terms.push(Term { mono: m, number: c })?;
        }
        Ok(())
    }

    /// Whether this is 0.
    pub fn is_zero(&self) -> bool
        ensures { IsTrue result ↔ (self.now ≡ zero_polynomial) }
    {
        self.terms.is_empty()
    }

    /// The total degree, 0 at 0.
    pub fn total_degree(&self) -> u32
        ensures same { result ≡ total_degree self.now }
        ensures limit { result ≤ MONO_DEGREE }
    {
        match self.terms.first() {
            Some(first) => first.mono.degree(),
            None => 0,
        }
    }
}
