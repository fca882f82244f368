//! What is asked of facets.
ghost use Rattle.std.specs.Prelude.{◌≡◌, ◌+◌, ◌<◌, ◌≤◌, ◌^◌, ℕ, All, IfOk, IfSome, IsNone, length, map};
ghost use Rattle.git_stages.specs.Short.{IsShort};
ghost use Rattle.git_chamber.specs.Chambers.{IsInner, crossing};
ghost use Rattle.git_orbit.specs.Signatures.{IsSignature};
ghost use Rattle.git_listing.specs.Listings.{inner};
ghost use Rattle.git_listing.specs.Views.{chamber_of, facet_of};
ghost use Rattle.git_asked.specs.Asks.{facet_line};
ghost use Rattle.git_asked.specs.Findings.{Finds};
ghost use Rattle.git_check_chambers.specs.Families.{IsFirstReason, OfEach};
ghost use Rattle.git_check_chambers.specs.Judged.{AreHoldings, AsksFacet, FacetAt, IsSizedChamber};

use crate::lines::found;
use crate::walls::is_shared;
use git_asked::{Finding, Reason, earlier};
use git_base::NoMemory;
use git_chamber::{Side, behind};
use git_listing::{ListedChamber, ListedFacet, ListedSide};
use git_machine::Sig;
use git_orbit::Cones;
use std::alloc::Global;

/// The place of a number, counted from 1, where there are so many.
fn place_of(number: u32, count: usize) -> Option<usize>
    ensures some { IfSome result (λ p. (number ≡ p + 1) × (p < count)) }
    ensures none { IsNone result → (p : ℕ) → number ≡ p + 1 → p < count → ⊥ }
{
    if number == 0 || number as usize > count {
        return None;
    }
    Some(number as usize - 1)
}

/// The first reason of an inner facet that is printed so, with the signature to which it leads and the
/// number of a chamber.
fn inner_reason(
    alloc: Global,
    cones: &Cones,
    version: u32,
    chambers: &[ListedChamber],
    sigs: &[Sig],
    c: &ListedChamber,
    facet: &ListedFacet,
    sig: &Sig,
    number: u32,
    matched: bool,
) -> Result<Option<Reason>, NoMemory>
    requires sized { All (IsSizedChamber cones.now.k) (map chamber_of chambers.now) }
    requires holdings { AreHoldings cones.now (map chamber_of chambers.now) sigs.now }
    requires rays { All (IsShort cones.now.k) c.now.rays.items }
    requires normal { IsShort cones.now.k facet.now.normal }
    requires side { (facet_of facet.now).side ≡ inner number matched }
    requires is_inner { IsInner cones.now c.now.rays.items facet.now.normal }
    requires signature { IsSignature cones.now (crossing cones.now.k c.now.rays.items facet.now.normal) sig.now }
    ensures { IfOk result (λ o. IsFirstReason (AsksFacet cones.now version (map chamber_of chambers.now) (chamber_of c.now) (facet_of facet.now)) o) }
{
    let Some(place) = place_of(number, chambers.len()) else {
        return Ok(Some(Reason::Neighbour));
    };
    if !sigs[place].same(sig) {
        return Ok(Some(Reason::Neighbour));
    }
    if version != 2 {
        return Ok(None);
    }
    let shared = is_shared(alloc, cones.k, &facet.normal, &c.rays, &chambers[place])?;
    if shared != matched {
        return Ok(Some(Reason::MatchKind));
    }
    Ok(None)
}

/// The first reason of a facet.
fn facet_reason(
    alloc: Global,
    cones: &Cones,
    version: u32,
    chambers: &[ListedChamber],
    sigs: &[Sig],
    c: &ListedChamber,
    facet: &ListedFacet,
) -> Result<Option<Reason>, NoMemory>
    requires sized { All (IsSizedChamber cones.now.k) (map chamber_of chambers.now) }
    requires holdings { AreHoldings cones.now (map chamber_of chambers.now) sigs.now }
    requires rays { All (IsShort cones.now.k) c.now.rays.items }
    requires few { length c.now.rays.items ≤ 65536 }
    requires normal { IsShort cones.now.k facet.now.normal }
    ensures { IfOk result (λ o. IsFirstReason (AsksFacet cones.now version (map chamber_of chambers.now) (chamber_of c.now) (facet_of facet.now)) o) }
{
    match behind(alloc, cones, &c.rays, &facet.normal)? {
        Side::Boundary(_) => match facet.side {
            ListedSide::Boundary => Ok(None),
            ListedSide::Inner { .. } => Ok(Some(Reason::FacetKind)),
        },
        Side::Inner(sig) => match facet.side {
            ListedSide::Boundary => Ok(Some(Reason::FacetKind)),
            ListedSide::Inner { chamber, matched } => inner_reason(
                alloc, cones, version, chambers, sigs, c, facet, &sig, chamber, matched,
            ),
        },
    }
}

/// The first finding of the facets of a chamber, whose place is given, and the line of its first facet.
pub(crate) fn facets_finding(
    alloc: Global,
    cones: &Cones,
    version: u32,
    chambers: &[ListedChamber],
    sigs: &[Sig],
    c: &ListedChamber,
    place: usize,
    line: u32,
) -> Result<Option<Finding>, NoMemory>
    requires sized { All (IsSizedChamber cones.now.k) (map chamber_of chambers.now) }
    requires holdings { AreHoldings cones.now (map chamber_of chambers.now) sigs.now }
    requires own { IsSizedChamber cones.now.k (chamber_of c.now) }
    requires line { line ≡ facet_line (map chamber_of chambers.now) place (chamber_of c.now) 0 }
    requires short { line + length c.now.facets.items < 2 ^ 32 }
    ensures { IfOk result (λ f. Finds (OfEach (FacetAt cones.now version (map chamber_of chambers.now) place (chamber_of c.now)) (chamber_of c.now).facets) f) }
{
    let _ = place;
    let mut first = None;
    for j in 0..c.facets.len() {
        let reason = facet_reason(alloc, cones, version, chambers, sigs, c, &c.facets[j])?;
        first = earlier(first, found(reason, line + j as u32));
    }
    Ok(first)
}
