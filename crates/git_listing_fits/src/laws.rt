//! What holds of the sizes of true listings. Each function is a law: its contract says it.
ghost use Rattle.git_listing_fits.specs.Laws.{ChambersAreReached, FacetsAreFew, ListingsFit};

/// A chamber has at most 2^16 facets.
pub fn facets_are_few()
    ensures { FacetsAreFew }
{}

/// The listing of a fan with at most 2^16 chambers, for one to sixteen columns, is within the limits of its text.
pub fn listings_fit()
    ensures { ListingsFit }
{}

/// The listing of a fan has no more chambers than signatures are reached.
pub fn chambers_are_reached()
    ensures { ChambersAreReached }
{}
