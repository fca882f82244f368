//! The answer on a listing and certificates.
ghost use Rattle.std.specs.Prelude.{◌≡◌, ◌↔◌, ◌<◌, ◌^◌, IfOk, IsTrue, Some, length};
ghost use Rattle.git_grading.specs.Gradings.{IsGrading};
ghost use Rattle.git_ideals.specs.Faces.{IsAFace};
ghost use Rattle.git_listing.specs.Limits.{FitsListing};
ghost use Rattle.git_listing.specs.Views.{listing_of};
ghost use Rattle.git_certtext.specs.Blocks.{FitsCerts, blocks_of};
ghost use Rattle.git_chamber.specs.Views.{AreConesOf};
ghost use Rattle.git_answers.specs.Verdicts.{AreVerdicts, whole_face};
ghost use Rattle.git_answers.specs.Fan.{IsFanOf};
ghost use Rattle.git_asked.specs.Asks.{chamber_line};
ghost use Rattle.git_asked.specs.Findings.{Finds};
ghost use Rattle.git_check_faces.specs.Faces.{AsksFaces, face_line};
ghost use Rattle.git_check.specs.Texts.{AllHold, AsksListing, AsksText, IsOfSizes};
ghost use Rattle.git_check.specs.Checks.{IsChecked, IsValid};
ghost use Rattle.git_check.specs.declared.checked.Checked.{Checked};

use crate::checked::{Checked, answer};
use git_asked::{Finding, Reason};
use git_base::NoMemory;
use git_chamber::FanGraph;
use git_check_chambers::listing_finding;
use git_check_faces::faces_finding;
use git_facecert::FaceVerdict;
use git_faces::full_faces;
use git_input::Input;
use git_input_cones::{input_cones, whole_mask};
use git_listing::Listing;
use git_orbit::{Cones, ConesFault};
use std::alloc::Global;

/// Whether the listing's matrix has the input's size.
fn is_of_sizes(input: &Input, listing: &Listing) -> bool
    ensures { IsTrue result ↔ IsOfSizes input.now (listing_of listing.now) }
{
    listing.k as usize == input.grading.k() && listing.r as usize == input.grading.r()
}

/// A reason that is named in the listing's head, at its line there.
fn at(reason: Reason, line: u32) -> Option<Finding>
    ensures { result ≡ Some (record { reason = reason; line = line }) }
{
    Some(Finding { reason, line })
}

/// The first finding of the listing, where the input's cones are known.
fn after_cones(
    alloc: Global,
    input: &Input,
    cones: Cones,
    listing: &Listing,
) -> Result<Option<Finding>, NoMemory>
    requires fan { IsFanOf input.now cones }
    requires cones { AreConesOf input.now.degrees.k input.now.degrees.columns cones.list }
    requires fits { FitsListing (listing_of listing.now) }
    requires short { chamber_line (listing_of listing.now).chambers (length (listing_of listing.now).chambers) < 2 ^ 32 }
    ensures { IfOk result (λ f. Finds (AsksListing input.now (listing_of listing.now)) f) }
{
    let graph = FanGraph::new(cones, &input.grading);
    let first = graph.first(alloc)?;
    listing_finding(alloc, graph.cones(), &first, graph.r() as u32, listing)
}

/// The first finding of the listing, where all that is asked of the certificates holds.
fn after_faces(
    alloc: Global,
    input: &Input,
    listing: &Listing,
    certs: &[FaceVerdict],
) -> Result<Option<Finding>, NoMemory>
    requires grading { IsGrading input.now.degrees.k input.now.degrees.columns }
    requires sizes { IsOfSizes input.now (listing_of listing.now) }
    requires verdicts { AreVerdicts input.now certs.now }
    requires faces { AllHold (AsksFaces input.now (blocks_of certs.now)) }
    requires whole { IsAFace input.now.generators (whole_face input.now) }
    requires fits { FitsListing (listing_of listing.now) }
    requires short { chamber_line (listing_of listing.now).chambers (length (listing_of listing.now).chambers) < 2 ^ 32 }
    ensures { IfOk result (λ f. Finds (AsksText input.now (listing_of listing.now) (blocks_of certs.now)) f) }
{
    match input_cones(alloc, input, certs) {
        Ok(cones) => after_cones(alloc, input, cones, listing),
        Err(ConesFault::Wide { .. }) => Ok(at(Reason::WideCone, 3)),
        Err(ConesFault::NoMemory) => Err(NoMemory),
    }
}

/// The first reason for which what is asked does not hold, at its first line. `whole` is the mask of all variables.
fn finding(
    alloc: Global,
    input: &Input,
    whole: u16,
    listing: &Listing,
    certs: &[FaceVerdict],
) -> Result<Option<Finding>, NoMemory>
    requires grading { IsGrading input.now.degrees.k input.now.degrees.columns }
    requires whole { whole ≡ whole_face input.now }
    requires fits { FitsListing (listing_of listing.now) }
    requires short { chamber_line (listing_of listing.now).chambers (length (listing_of listing.now).chambers) < 2 ^ 32 }
    requires certs_fit { FitsCerts (length input.now.degrees.columns) (blocks_of certs.now) }
    requires certs_short { face_line (blocks_of certs.now) (length (blocks_of certs.now)) < 2 ^ 32 }
    ensures { IfOk result (λ f. Finds (AsksText input.now (listing_of listing.now) (blocks_of certs.now)) f) }
{
    if !is_of_sizes(input, listing) {
        return Ok(at(Reason::Shape, 2));
    }
    let masks = full_faces(alloc, &input.grading)?;
    let found = faces_finding(alloc, input, &masks, whole, certs)?;
    if found.is_some() {
        return Ok(found);
    }
    after_faces(alloc, input, listing, certs)
}

/// Whether a listing is that of an input, and certificates are one accepted for each of its full faces, masks
/// descending; else the first reason for which they aren't, and its first line in the text of the listing or of the
/// certificates. A listing of version 1 says the same without marks.
///
/// Nothing is known of the listing and of the certificates but the limits of their texts, which have fewer than 2^32
/// lines each.
pub fn check(
    alloc: Global,
    input: &Input,
    listing: &Listing,
    certs: &[FaceVerdict],
) -> Result<Checked, NoMemory>
    requires fits { FitsListing (listing_of listing.now) }
    requires short { chamber_line (listing_of listing.now).chambers (length (listing_of listing.now).chambers) < 2 ^ 32 }
    requires certs_fit { FitsCerts (length input.now.degrees.columns) (blocks_of certs.now) }
    requires certs_short { face_line (blocks_of certs.now) (length (blocks_of certs.now)) < 2 ^ 32 }
    ensures checked { IfOk result (IsChecked input.now (listing_of listing.now) (blocks_of certs.now)) }
    ensures valid { IfOk result (λ c. (c ≡ Checked.Valid) ↔ IsValid input.now (listing_of listing.now) (blocks_of certs.now)) }
{
    let whole = whole_mask(input);
    Ok(answer(finding(alloc, input, whole, listing, certs)?))
}
