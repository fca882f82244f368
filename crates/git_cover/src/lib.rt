//! When cones cover: a family of full cones within one cone, whose facets all lie on its boundary or are
//! matched, covers it. Each function is a law about the definitions of `specs/`, with an empty body: its
//! contract is the law.
#![tactic(auto)]

ghost use Rattle.git_cover.specs.Laws.{BoundaryHoldsTheFacet, MatchedConesCover};

/// Where each facet of each cone lies on the boundary or is matched, the cones cover.
pub fn matched_cones_cover()
    ensures { MatchedConesCover }
{}

/// A facet whose middle lies on the boundary lies there whole.
pub fn boundary_holds_the_facet()
    ensures { BoundaryHoldsTheFacet }
{}
