//! Where a listing of chambers shows that they cover the cone of the columns. Each function is a law about
//! listings, with an empty body: its contract is the law.
#![tactic(auto)]

ghost use Rattle.git_covering.specs.Laws.{BoundaryFacetIsOnTheWeightCone, ListedChambersAreShortCones, MatchedListingCovers, MatchedListingCoversColumns};

/// Where each inner facet of a listing is matched, the listed chambers cover cone 0, the weight cone.
pub fn matched_listing_covers()
    ensures { MatchedListingCovers }
{}

/// Where each inner facet of a listing is matched, each vector of the cone of the columns lies in a listed
/// chamber.
pub fn matched_listing_covers_columns()
    ensures { MatchedListingCoversColumns }
{}

/// The middle of a facet behind which nothing lies is on a facet of cone 0.
pub fn boundary_facet_is_on_the_weight_cone()
    ensures { BoundaryFacetIsOnTheWeightCone }
{}

/// The chambers of a listing are cones of full dimension, given by their rays and their facets, with entries of at most
/// 2^40 in absolute value.
pub fn listed_chambers_are_short_cones()
    ensures { ListedChambersAreShortCones }
{}
