//! Germs and the cones that hold them.

ghost use Rattle.git_geometry.specs.GermLaws.{
  GermIsHeldExactly,
  HeldGermComesInside,
  SumOfFullRankIsInside,
  InsideExactlyWithFullDimension,
};

/// What normals cut out holds a germ exactly where for each normal the first nonzero product with the
/// germ's vectors is positive, or all are 0.
pub fn germ_is_held_exactly()
    ensures { GermIsHeldExactly }
{}

/// Where a germ that ends with the unit vectors is held, some vector has a positive product with each
/// nonzero normal.
pub fn held_germ_comes_inside()
    ensures { HeldGermComesInside }
{}

/// The sum of vectors of full rank has a positive product with each nonzero normal that is negative on
/// none of them.
pub fn sum_of_full_rank_is_inside()
    ensures { SumOfFullRankIsInside }
{}

/// Nonzero normals have an inside point exactly where their cone has full dimension: where k of its
/// generators are independent.
pub fn inside_exactly_with_full_dimension()
    ensures { InsideExactlyWithFullDimension }
{}
