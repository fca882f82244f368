//! What is asked of certificates.
ghost use Rattle.std.specs.Prelude.{◌≡◌, ◌↔◌, ◌<◌, ◌^◌, IfOk, IsTrue, Some, length, slice_get};
ghost use Rattle.git_faces.specs.FullFaces.{AreFullFaces};
ghost use Rattle.git_certtext.specs.Blocks.{FitsBlock, FitsCerts, block_of, blocks_of, cert_of};
ghost use Rattle.git_answers.specs.Verdicts.{whole_face};
ghost use Rattle.git_asked.specs.Findings.{Finds};
ghost use Rattle.git_check_chambers.specs.Families.{IsFirstReason};
ghost use Rattle.git_check_faces.specs.Faces.{AsksEnd, AsksFaces, AsksOfFace, IsAccepted, IsFreeCert, face_line, lines_of};

use git_asked::{Finding, Reason, earlier};
use git_base::NoMemory;
use git_check_chambers::found;
use git_facecert::{Accepted, FaceCert, FaceVerdict, accept};
use git_input::Input;
use std::alloc::Global;

/// Whether a mask stands at a place.
fn is_at(masks: &[u16], place: usize, mask: u16) -> bool
    ensures { IsTrue result ↔ (slice_get masks.now place ≡ Some mask) }
{
    place < masks.len() && masks[place] == mask
}

/// Whether a certificate is free if it is that of the whole face.
fn is_free_if_whole(face: &FaceVerdict, whole: u16) -> bool
    ensures { IsTrue result ↔ (face.now.mask ≡ whole → IsFreeCert (cert_of face.now.cert)) }
{
    match face.cert {
        FaceCert::Free { .. } => true,
        FaceCert::Monomial { .. } => face.mask != whole,
    }
}

/// Whether the certificate of a face is accepted.
fn is_accepted(alloc: Global, input: &Input, face: &FaceVerdict) -> Result<bool, NoMemory>
    requires { FitsBlock (length input.now.degrees.columns) (block_of face.now) }
    ensures { IfOk result (λ b. IsTrue b ↔ IsAccepted input.now.generators face.now.mask (cert_of face.now.cert)) }
{
    match accept(alloc, input, face.mask, &face.cert)? {
        Accepted::Yes => Ok(true),
        Accepted::No(_) => Ok(false),
    }
}

/// The first reason of the certificate at a place: that it isn't that of the full face at this place, that
/// it isn't accepted, or that it is monomial and of the whole face.
fn face_reason(
    alloc: Global,
    input: &Input,
    masks: &[u16],
    whole: u16,
    place: usize,
    face: &FaceVerdict,
) -> Result<Option<Reason>, NoMemory>
    requires masks { AreFullFaces input.now.degrees.k input.now.degrees.columns masks.now }
    requires whole { whole ≡ whole_face input.now }
    requires fits { FitsBlock (length input.now.degrees.columns) (block_of face.now) }
    ensures { IfOk result (λ o. IsFirstReason (AsksOfFace input.now place (block_of face.now)) o) }
{
    if !is_at(masks, place, face.mask) {
        return Ok(Some(Reason::VerdictMissing));
    }
    if !is_accepted(alloc, input, face)? {
        return Ok(Some(Reason::CertRefused));
    }
    if !is_free_if_whole(face, whole) {
        return Ok(Some(Reason::Monomial));
    }
    Ok(None)
}

/// The number of lines of a certificate.
fn lines(cert: &FaceCert) -> u32
    requires { lines_of (cert_of cert.now) < 2 ^ 32 }
    ensures { result ≡ lines_of (cert_of cert.now) }
{
    match cert {
        FaceCert::Monomial { cofactors, .. } => 1 + cofactors.len() as u32,
        FaceCert::Free { basis } => 1 + basis.len() as u32,
    }
}

/// The first reason at the end of the certificates: that some full face has none.
fn end_reason(input: &Input, masks: &[u16], certs: &[FaceVerdict]) -> Option<Reason>
    requires masks { AreFullFaces input.now.degrees.k input.now.degrees.columns masks.now }
    ensures { IsFirstReason (AsksEnd input.now (blocks_of certs.now)) result }
{
    let _ = input;
    if certs.len() < masks.len() {
        return Some(Reason::VerdictMissing);
    }
    None
}

/// The first reason for which what is asked of certificates does not hold, at its first line: that they are
/// not those of the full faces, masks descending, that one isn't accepted, or that that of the whole face
/// is monomial. `masks` are those of all full faces, and `whole` is that of all variables.
///
/// Nothing is known of the certificates but the limits of their text, which has fewer than 2^32 lines.
pub fn faces_finding(
    alloc: Global,
    input: &Input,
    masks: &[u16],
    whole: u16,
    certs: &[FaceVerdict],
) -> Result<Option<Finding>, NoMemory>
    requires masks { AreFullFaces input.now.degrees.k input.now.degrees.columns masks.now }
    requires whole { whole ≡ whole_face input.now }
    requires fits { FitsCerts (length input.now.degrees.columns) (blocks_of certs.now) }
    requires short { face_line (blocks_of certs.now) (length (blocks_of certs.now)) < 2 ^ 32 }
    ensures { IfOk result (λ f. Finds (AsksFaces input.now (blocks_of certs.now)) f) }
{
    let mut first = None;
    let mut line = 3;
    for place in 0..certs.len() {
        let face = &certs[place];
        let reason = face_reason(alloc, input, masks, whole, place, face)?;
        first = earlier(first, found(reason, line));
        line += lines(&face.cert);
    }
    Ok(earlier(first, found(end_reason(input, masks, certs), line)))
}
