//! What holds of listings. Each function is a law: its contract says it.
ghost use Rattle.git_assemble.specs.Laws.{OneListing, ListedIsGood, GoodIsListed, ListedChamberIsTheIntersection, ListedMarkIsTheLeastFurtherCone};

/// A first signature has one listing.
pub fn one_listing()
    ensures { OneListing }
{}

/// Where there is a listing, all that is reached is good.
pub fn listed_is_good()
    ensures { ListedIsGood }
{}

/// Where all that is reached from a legal signature is good, and a list has exactly what is reached, there
/// is a listing.
pub fn good_is_listed()
    ensures { GoodIsListed }
{}

/// A listed chamber is the intersection of the cones that contain it.
pub fn listed_chamber_is_the_intersection()
    ensures { ListedChamberIsTheIntersection }
{}

/// It is marked with the least number of a cone that holds its weight and does not contain it.
pub fn listed_mark_is_the_least_further_cone()
    ensures { ListedMarkIsTheLeastFurtherCone }
{}
