//! What monomials and polynomials over the numbers modulo 32003 are: definitions alone, with their laws.
//!
//! The crate has no code. Each law is the contract of a function with an empty body, and the crates
//! above take the definitions for their contracts and the lemmas for their proofs.
#![tactic(auto)]

ghost use Rattle.git_algebra.specs.Laws.{MonomialLaws, OrderLaws, RingLaws, CoefficientLaws, TermLaws, LeadLaws, RestrictionLaws};

/// Monomials multiply as numbers do; one divides another exactly where it does at each place.
pub fn monomials_multiply()
    ensures { MonomialLaws }
{}

/// The order is total, 1 is least, products keep it, and a greater total degree is greater.
pub fn monomials_are_ordered()
    ensures { OrderLaws }
{}

/// Polynomials are a commutative ring.
pub fn polynomials_are_a_ring()
    ensures { RingLaws }
{}

/// A polynomial is fixed by its coefficients, which add, subtract and scale modulo 32003.
pub fn coefficients_fix_polynomials()
    ensures { CoefficientLaws }
{}

/// A product by a term adds the term's exponents to each monomial.
pub fn terms_shift()
    ensures { TermLaws }
{}

/// The lead of a product is the product of the leads, since 32003 is prime; total degrees add.
pub fn leads_multiply()
    ensures { LeadLaws }
{}

/// To set the variables outside a face to 0 keeps sums and products.
pub fn restriction_keeps_sums_and_products()
    ensures { RestrictionLaws }
{}
