//! Cones by generators and cones by inequalities are the same sets.

ghost use Rattle.git_geometry.specs.DualityLaws.{
  MemberOrSeparated,
  CutConeIsGenerated,
  ConeIsCutOut,
  NormalsCutOutCone,
  DualOfDualIsCone,
  FacetsCutOutCone,
  FacetsHaveFullRank,
};

/// Farkas' lemma: a vector is in the cone of some vectors, or a normal is negative at it and at none
/// of them.
pub fn vector_is_in_the_cone_or_separated()
    ensures { MemberOrSeparated }
{}

/// Minkowski's theorem: what finitely many inequalities cut out is the cone of finitely many vectors.
pub fn cut_cone_is_generated()
    ensures { CutConeIsGenerated }
{}

/// Weyl's theorem: finitely many inequalities cut out the cone of finitely many vectors.
pub fn cone_is_cut_out()
    ensures { ConeIsCutOut }
{}

/// Both ways of giving a cone: vectors that generate the dual of a cone cut it out.
pub fn normals_cut_out_the_cone()
    ensures { NormalsCutOutCone }
{}

/// The dual of the dual of a cone is the cone.
pub fn dual_of_the_dual_is_the_cone()
    ensures { DualOfDualIsCone }
{}

/// A cone of full dimension is what its facets cut out.
pub fn facets_cut_out_the_cone()
    ensures { FacetsCutOutCone }
{}

/// The facets of a pointed cone of full dimension have full rank.
pub fn facets_have_full_rank()
    ensures { FacetsHaveFullRank }
{}
