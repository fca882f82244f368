//! Cones that everybody knows.

ghost use Rattle.git_geometry.specs.Instances.{
  QuadrantHasUnitFacets,
  InsideGeneratorIsNoRay,
  InsideGeneratorChangesNoFacet,
  SquareHasItsCornersAsRays,
  SquareHasItsSidesAsFacets,
};

/// The facets of the quadrant are (0, 1) and (1, 0).
pub fn quadrant_has_unit_facets()
    ensures { QuadrantHasUnitFacets }
{}

/// The rays of the cone of (0, 1), (1, 1) and (1, 0) are (0, 1) and (1, 0).
pub fn inside_generator_is_no_ray()
    ensures { InsideGeneratorIsNoRay }
{}

/// And so are its facets.
pub fn inside_generator_changes_no_facet()
    ensures { InsideGeneratorChangesNoFacet }
{}

/// The cone over a square has the corners as its rays.
pub fn square_has_its_corners_as_rays()
    ensures { SquareHasItsCornersAsRays }
{}

/// And the sides as its facets.
pub fn square_has_its_sides_as_facets()
    ensures { SquareHasItsSidesAsFacets }
{}
