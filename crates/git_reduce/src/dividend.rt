//! The polynomial that a division works on.

ghost use Rattle.std.specs.Prelude.{◌≡◌, ◌+◌, ◌≤◌, ◌∷◌, ◌++◌, IfOk, OnOk};
ghost use Rattle.git_algebra.specs.Exponents.{degree};
ghost use Rattle.git_algebra.specs.Sums.{Alike};
ghost use Rattle.git_algebra.specs.Operations.{minus, times_term, lead_of, total_degree};
ghost use Rattle.git_reduce.specs.Entries.{AreNumbers};

use git_base::NoMemory;
use git_field::Fp;
use git_mono::{MONO_DEGREE, Mono};
use git_poly::Poly;
use std::alloc::Global;
use std::collections::BTreeMap;
use std::collections::btree_map::Entry;
use std::marker::Model;

/// A polynomial by its monomials, so that a multiple of a short one is taken away at a few places.
#[derive(Drop)]
pub struct Dividend {
    terms: BTreeMap<Mono, Fp>,
}

impl Model for Dividend {
    ghost use Rattle.git_algebra.specs.Polynomials.{Polynomial, normal, polynomial_code};
    ghost use Rattle.git_reduce.specs.Entries.{AreNumbers};

    ghost Value = { Polynomial };

    ghost coded = { polynomial_code };

    ghost view = { λ a. normal a.terms.entries };

    ghost invariant = { λ a. AreNumbers a.terms.entries };
}

impl Dividend {
    /// The dividend that is a polynomial.
    pub fn of(alloc: Global, f: &Poly) -> Result<Dividend, NoMemory>
        ensures { IfOk result (λ d. d ≡ f.now) }
    {
        let mut terms = BTreeMap::new(alloc);
        for i in 0..f.term_count() {
            let term = f.term_at(i);
            add_term(&mut terms, term.0, term.1)?;
        }
        Ok(Dividend { terms })
    }

    /// The greatest monomial with its number, or `None` at 0.
    pub fn lead(&self) -> Option<(Mono, Fp)>
        ensures { result ≡ lead_of self.now }
    {
        if self.terms.len() == 0 {
            return None;
        }
        let last = self.terms.last_key_value().unwrap();
        Some((*last.0, *last.1))
    }

    /// This less a term times a polynomial.
    pub fn minus(self, m: &Mono, c: Fp, g: &Poly) -> Result<Dividend, NoMemory>
        requires { degree m.now + total_degree g.now ≤ MONO_DEGREE }
        ensures { IfOk result (λ d. d ≡ minus self (times_term m.now c g.now)) }
    {
        let negative = c.neg();
        let mut terms = self.terms;
        for i in 0..g.term_count() {
            let term = g.term_at(i);
            let product = m.times(&term.0).unwrap();
            add_term(&mut terms, product, negative.mul(term.1))?;
        }
        Ok(Dividend { terms })
    }

    /// The polynomial that is left.
    pub fn rest(self, alloc: Global) -> Result<Poly, NoMemory>
        ensures { IfOk result (λ p. p ≡ self) }
    {
        let mut terms = self.terms;
        let mut rest = Poly::zero(alloc);
        while let Some(last) = terms.pop_last() {
            rest.append(last.0, last.1)?;
        }
        Ok(rest)
    }
}

/// One term more. The map is searched once.
fn add_term(terms: &mut BTreeMap<Mono, Fp>, m: Mono, c: Fp) -> Result<(), NoMemory>
    requires { AreNumbers terms.old.entries }
    ensures sum { OnOk result (Alike terms.new.entries ((m, c) ∷ terms.old.entries)) }
    ensures numbers { OnOk result (AreNumbers terms.new.entries) }
{
    if c.value() == 0 {
        return Ok(());
    }
    match terms.entry(m)? {
        Entry::Vacant(entry) => {
            entry.insert(c);
        }
        Entry::Occupied(mut entry) => {
            let sum = c.add(*entry.get());
            if sum.value() == 0 {
                entry.remove();
            } else {
                entry.insert(sum);
            }
        }
    }
    Ok(())
}
