//! The extreme vectors of a cone after one inequality more.

ghost use Rattle.git_geometry.specs.DescriptionLaws.{
  OneInequalityMore,
  ExactListHasExtremeVectors,
  BlendOfNeighboursIsEdge,
  NextListIsExact,
};

use crate::VectorSet;

/// The generators on one side of an inequality, and the blends of one above with one below, generate
/// the part of the cone on that side.
pub fn one_inequality_more<D: VectorSet>()
    ensures { OneInequalityMore D.holds }
{}

/// A list is exact where its members are the extreme vectors.
pub fn exact_list_has_the_extreme_vectors()
    ensures { ExactListHasExtremeVectors }
{}

/// The blend of two extreme vectors on the two sides of an inequality is an edge exactly where no
/// third one has the zeros that they share.
pub fn blend_is_an_edge_exactly_between_neighbours()
    ensures { BlendOfNeighboursIsEdge }
{}

/// With one inequality more, the extreme vectors on its side, and the blends of neighbours across it,
/// are the extreme vectors.
pub fn next_list_is_exact()
    ensures { NextListIsExact }
{}
