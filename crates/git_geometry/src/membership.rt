//! Which vectors a cone holds.

ghost use Rattle.git_geometry.specs.MembershipLaws.{
  ConeIsClosed,
  CutConeIsClosed,
  ClosedSetHoldsCone,
  ConeLiesInCone,
};

use crate::VectorSet;

/// A cone holds 0, the sums of its vectors, their multiples by numbers that are not negative, and
/// the vectors of which it holds a positive multiple.
pub fn cone_is_closed()
    ensures { ConeIsClosed }
{}

/// So does the cone that inequalities cut out.
pub fn cut_cone_is_closed()
    ensures { CutConeIsClosed }
{}

/// A closed set that holds the generators holds their cone.
pub fn closed_set_holds_the_cone<D: VectorSet>()
    ensures { ClosedSetHoldsCone D.holds }
{}

/// A cone that holds the generators of another holds that cone.
pub fn cone_lies_in_the_cone_of_its_generators()
    ensures { ConeLiesInCone }
{}
