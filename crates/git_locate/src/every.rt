//! Where several weights lie.
ghost use Rattle.std.specs.Prelude.{◌≡◌, ◌<◌, ◌+◌, ◌^◌, All, IfOk, IfErr, get_or, length, map};
ghost use Rattle.git_listing.specs.Views.{listing_of};
ghost use Rattle.git_allcones.specs.Cones.{AreShortCones, cones_of};
ghost use Rattle.git_stages.specs.Short.{IsShort};
ghost use Rattle.git_locate.specs.Lists.{ArePlaced, IsPlaced};
ghost use Rattle.git_locate.specs.Views.{IsFaultAt, IsLocateAllFault, placed_of};

use crate::located::{LocateAllFault, LocateFault, LocatedWeight};
use crate::locating::locate;
use git_ints::IVec;
use git_listing::Listing;
use git_orbit::Cones;
use git_stages::add;
use std::alloc::Global;

/// The weight with this number, from 1, and where it lies.
fn place_at(
    alloc: Global,
    cones: &Cones,
    listing: &Listing,
    number: usize,
    weight: &IVec,
) -> Result<LocatedWeight, LocateAllFault>
    requires some { 0 < length cones.now.list }
    requires few { length listing.now.chambers.items < 2 ^ 32 }
    requires listing { AreShortCones cones.now.k (cones_of (listing_of listing.now)) }
    requires weight { IsShort cones.now.k weight.now }
    ensures place { IfOk result (λ p. IsPlaced cones.now (listing_of listing.now) weight.now (placed_of p)) }
    ensures fault { IfErr result (λ f. IsFaultAt cones.now number weight.now f) }
{
    match locate(alloc, cones, listing, weight) {
        Ok(place) => Ok(LocatedWeight {
            weight: *weight,
            place,
        }),
        Err(LocateFault::Wide(at)) => Err(LocateAllFault::Wide { number, at }),
        Err(LocateFault::NoMemory) => Err(LocateAllFault::NoMemory),
    }
}

/// Where each of several weights lies, in their order, as `locate` tells it.
///
/// There is a cone. The weights have `k` entries, of at most 2^40 in absolute value. The listing has fewer than 2^32
/// chambers, and each has the rays and the facets of one cone with `k` independent rays, with entries of at most 2^40.
///
/// # Errors
///
/// - `Wide`: some weight is refused by `locate`; the number of the first of them, from 1, and its evidence.
/// - `NoMemory`: memory ran out.
pub fn locate_all(
    alloc: Global,
    cones: &Cones,
    listing: &Listing,
    weights: &[IVec],
) -> Result<Vec<LocatedWeight>, LocateAllFault>
    requires some { 0 < length cones.now.list }
    requires few { length listing.now.chambers.items < 2 ^ 32 }
    requires listing { AreShortCones cones.now.k (cones_of (listing_of listing.now)) }
    requires weights { All (IsShort cones.now.k) weights.now }
    ensures places { IfOk result (λ v. ArePlaced cones.now (listing_of listing.now) weights.now (map placed_of v.items)) }
    ensures fault { IfErr result (λ f. IsLocateAllFault cones.now weights.now f) }
{
    let mut out = Vec::new(alloc);
    for i in 0..weights.len() {
        let one = place_at(alloc, cones, listing, i + 1, &weights[i])?;
        add(&mut out, one)?;
    }
    Ok(out)
}
