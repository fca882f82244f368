//! The reply to a listing.
ghost use Rattle.std.specs.Prelude.{◌≡◌, IfOk, map};
ghost use Rattle.git_base.specs.declared.status.Status.{Status};
ghost use Rattle.git_listing.specs.Views.{chamber_of, listing_of};
ghost use Rattle.git_replies.specs.Cases.{says};
ghost use Rattle.git_bunch.specs.Bunches.{IsCrossedListing};
ghost use Rattle.git_bunch.specs.Stable.{IsFamily, family};
ghost use Rattle.git_bunch_replies.specs.BunchCases.{bunch_case};

use git_base::{NoMemory, Status};
use git_bunch::{bunch, print};
use git_grading::Grading;
use git_listing::Listing;
use git_orbit::Cones;
use git_replies::Reply;
use std::alloc::Global;

/// The reply to a listing: the bunches of its chambers.
///
/// The masks are those of the full a-faces of the grading, descending, and the cones are theirs. The chambers are as
/// [`git_bunch::bunch`] wants them.
///
/// # Errors
///
/// `NoMemory`: memory ran out.
pub fn bunch_reply(
    alloc: Global,
    cones: &Cones,
    g: &Grading,
    free: &[u16],
    listing: &Listing,
) -> Result<Reply, NoMemory>
    requires entries { cones.now.k ≡ g.now.k }
    requires family { IsFamily (family cones.now g.now.columns free.now) }
    requires listing { IsCrossedListing cones.now (map chamber_of listing.now.chambers.items) }
    ensures { IfOk result (λ a. bunch_case (family cones.now g.now.columns free.now) (listing_of listing.now) (says a.status a.text.items)) }
{
    let bunches = bunch(alloc, cones, g, free, listing)?;
    Ok(Reply {
        status: Status::Done,
        text: print(alloc, &bunches)?,
    })
}
