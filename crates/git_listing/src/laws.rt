//! What holds of listings. Each function is a law: its contract says it.
ghost use Rattle.git_listing.specs.Laws.{OldFitsItsVersion};
ghost use Rattle.git_listing.specs.ReadingLaws.{PrintedListingsAreReadBack, OneListing, ListingOrFirstFault, ListingsHaveNoFault, ListingsWithinLimitsMayBePrinted};

/// Without its marks a listing fits version 1.
pub fn old_fits_its_version()
    ensures { OldFitsItsVersion }
{}

/// A listing that is printed is read back, whatever follows.
pub fn printed_listings_are_read_back()
    ensures { PrintedListingsAreReadBack }
{}

/// Bytes begin with the text of one listing at most.
pub fn one_listing()
    ensures { OneListing }
{}

/// Bytes begin with the text of a listing, or have a first fault.
pub fn listing_or_first_fault()
    ensures { ListingOrFirstFault }
{}

/// Bytes that begin with the text of a listing have no fault.
pub fn listings_have_no_fault()
    ensures { ListingsHaveNoFault }
{}

/// A listing within the limits may be printed.
pub fn listings_within_limits_may_be_printed()
    ensures { ListingsWithinLimitsMayBePrinted }
{}
