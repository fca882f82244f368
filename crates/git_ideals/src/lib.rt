//! Ideals of polynomials, division, Buchberger's criterion and a-faces: definitions alone, with
//! their laws.
//!
//! The crate has no code. Each law is the contract of a function with an empty body, and the crates
//! above take the definitions for their contracts and the lemmas for their proofs.
#![tactic(auto)]

ghost use Rattle.git_ideals.specs.Laws.{DivisionLaws, SPolynomialLaws, BuchbergerCriterion, IdealsDivideToZero, ExtraVariable, MonomialsDividePowers, PowersShowNoAFace, MembersShowAFace};

/// Each polynomial has quotients and a rest by a list of members, and only one. It is the sum of the
/// products of the quotients with the members, and the rest.
pub fn division_gives_quotients_and_rest()
    ensures { DivisionLaws }
{}

/// Two polynomials other than 0 have one S-polynomial.
pub fn pairs_have_one_s_polynomial()
    ensures { SPolynomialLaws }
{}

/// Where the S-polynomials of pairs divide to rest 0, the lead of each nonzero polynomial of the
/// ideal is a multiple of a member's lead.
pub fn buchberger_criterion()
    ensures { BuchbergerCriterion }
{}

/// Where the S-polynomials of pairs divide to rest 0, exactly the polynomials of the ideal do.
pub fn ideals_divide_to_zero()
    ensures { IdealsDivideToZero }
{}

/// A power of a monomial is in an ideal exactly where 1 is in it with the clearing polynomial.
pub fn extra_variable_stands_for_powers()
    ensures { ExtraVariable }
{}

/// A monomial in a face's variables divides a power of their product.
pub fn monomials_divide_powers()
    ensures { MonomialsDividePowers }
{}

/// A power of the product of a face's variables, as a sum of products with the restricted
/// generators, shows that the face is no a-face.
pub fn powers_show_no_a_face()
    ensures { PowersShowNoAFace }
{}

/// Members by which the restricted generators, the clearing polynomial and the S-polynomials of
/// pairs divide to rest 0, and of which none has the lead 1, show that the face is an a-face.
pub fn members_show_a_face()
    ensures { MembersShowAFace }
{}
