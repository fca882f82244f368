//! Laws of the definitions, each the contract of an empty function.
ghost use Rattle.git_degrees.specs.Laws.{MonomialsApartAreFound, OnePairApart, NoneApartWhereHomogeneous, WithoutTorsion};

/// The monomials that are found apart are the lead's and the greatest of another degree, and there are none exactly where the
/// polynomial is homogeneous.
pub fn monomials_apart_are_found()
    ensures { MonomialsApartAreFound }
{}

/// A polynomial has one such pair at most.
pub fn one_pair_apart()
    ensures { OnePairApart }
{}

/// A homogeneous polynomial has none.
pub fn none_apart_where_homogeneous()
    ensures { NoneApartWhereHomogeneous }
{}

/// Without torsion rows, two monomials are of one degree exactly where the columns give them one.
pub fn degrees_without_torsion()
    ensures { WithoutTorsion }
{}
