//! The reply to a listing.
ghost use Rattle.std.specs.Prelude.{◌≡◌, IfOk, map};
ghost use Rattle.git_base.specs.declared.status.Status.{Status};
ghost use Rattle.git_listing.specs.Views.{listing_of};
ghost use Rattle.git_allcones.specs.Cones.{AreShortCones, cones_of};
ghost use Rattle.git_allcones.specs.Faces.{AreAllFaces, face_of};
ghost use Rattle.git_cone_text.specs.ConesText.{cones_text};
ghost use Rattle.git_replies.specs.Cases.{says};
ghost use Rattle.git_cone_replies.specs.ConeCases.{cones_case, judges};

use crate::lines::{many_line, wide_pair_line};
use git_allcones::{AllFault, FaceOf, FanVerdict, VerdictFault, all_faces, fan_verdict};
use git_base::{NoMemory, Status};
use git_cone_text::print;
use git_listing::Listing;
use git_replies::Reply;
use std::alloc::Global;

/// The text of the faces and the verdict.
fn told(alloc: Global, k: u32, faces: &[FaceOf], verdict: FanVerdict) -> Result<Reply, NoMemory>
    ensures { IfOk result (λ a. says a.status a.text.items ≡ says Status.Done (cones_text k (map face_of faces.now) verdict)) }
{
    Ok(Reply {
        status: Status::Done,
        text: print(alloc, k, faces, verdict)?,
    })
}

/// The reply where all faces are found.
fn judged(alloc: Global, listing: &Listing, faces: &[FaceOf]) -> Result<Reply, NoMemory>
    requires cones { AreShortCones listing.now.k (cones_of (listing_of listing.now)) }
    requires all { AreAllFaces listing.now.k (cones_of (listing_of listing.now)) (map face_of faces.now) }
    ensures { IfOk result (λ a. judges (listing_of listing.now) (says a.status a.text.items)) }
{
    match fan_verdict(alloc, listing.k, listing) {
        Ok(verdict) => told(alloc, listing.k, faces, verdict),
        Err(VerdictFault::Wide { first, second, at }) => wide_pair_line(alloc, first, second, &at),
        Err(VerdictFault::NoMemory) => Err(NoMemory),
    }
}

/// The reply to a listing whose chambers are cones of its dimension: that their faces are too many, or that
/// two chambers are wide together, or all faces and the verdict whether the chambers form a fan.
pub fn cones_reply(alloc: Global, listing: &Listing) -> Result<Reply, NoMemory>
    requires { AreShortCones listing.now.k (cones_of (listing_of listing.now)) }
    ensures { IfOk result (λ a. cones_case (listing_of listing.now) (says a.status a.text.items)) }
{
    match all_faces(alloc, listing.k, listing) {
        Ok(faces) => judged(alloc, listing, &faces),
        Err(AllFault::TooMany) => many_line(alloc),
        Err(AllFault::NoMemory) => Err(NoMemory),
    }
}
