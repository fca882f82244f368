//! The reply to weights.
ghost use Rattle.std.specs.Prelude.{◌≡◌, ◌<◌, ◌^◌, All, IfOk, length, map};
ghost use Rattle.git_base.specs.declared.status.Status.{Status};
ghost use Rattle.git_stages.specs.Short.{IsShort};
ghost use Rattle.git_listing.specs.Views.{listing_of};
ghost use Rattle.git_allcones.specs.Cones.{AreShortCones, cones_of};
ghost use Rattle.git_locate.specs.PlaceText.{places_text};
ghost use Rattle.git_locate.specs.Views.{placed_of};
ghost use Rattle.git_replies.specs.Cases.{says};
ghost use Rattle.git_weight_replies.specs.WeightCases.{locate_case};

use crate::lines::wide_weight_line;
use git_base::{NoMemory, Status};
use git_ints::IVec;
use git_listing::Listing;
use git_locate::{LocateAllFault, LocatedWeight, locate_all, print};
use git_orbit::Cones;
use git_replies::Reply;
use std::alloc::Global;

/// The text of the weights and of where they lie.
fn told(alloc: Global, all: &[LocatedWeight]) -> Result<Reply, NoMemory>
    ensures { IfOk result (λ a. says a.status a.text.items ≡ says Status.Done (places_text (map placed_of all.now))) }
{
    Ok(Reply {
        status: Status::Done,
        text: print(alloc, all)?,
    })
}

/// The reply to weights beside a listing and its cones: the first weight whose cones are wide together, or where each
/// of them lies.
///
/// There is a cone. The weights have `k` entries, of at most 2^40 in absolute value. The listing has fewer than 2^32
/// chambers, and each has the rays and the facets of one cone with `k` independent rays, with entries of at most 2^40.
pub fn locate_reply(
    alloc: Global,
    cones: &Cones,
    listing: &Listing,
    weights: &[IVec],
) -> Result<Reply, NoMemory>
    requires some { 0 < length cones.now.list }
    requires few { length listing.now.chambers.items < 2 ^ 32 }
    requires listing { AreShortCones cones.now.k (cones_of (listing_of listing.now)) }
    requires weights { All (IsShort cones.now.k) weights.now }
    ensures { IfOk result (λ a. locate_case weights.now cones.now (listing_of listing.now) (says a.status a.text.items)) }
{
    match locate_all(alloc, cones, listing, weights) {
        Ok(all) => told(alloc, &all),
        Err(LocateAllFault::Wide { number, at }) => wide_weight_line(alloc, number, &at),
        Err(LocateAllFault::NoMemory) => Err(NoMemory),
    }
}
