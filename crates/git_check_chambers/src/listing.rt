//! The answer on a listing.
ghost use Rattle.std.specs.Prelude.{◌≡◌, ◌↔◌, ◌+◌, ◌<◌, ◌^◌, ℕ, All, IfOk, IsTrue, Some, length, map, slice_get};
ghost use Rattle.git_machine.specs.Signatures.{Signature};
ghost use Rattle.git_orbit.specs.Orbits.{Fan};
ghost use Rattle.git_listing.specs.Listings.{Listing as ListingValue};
ghost use Rattle.git_listing.specs.Limits.{FitsListing};
ghost use Rattle.git_listing.specs.Views.{chamber_of, listing_of};
ghost use Rattle.git_asked.specs.Asked.{IsFirstPlace};
ghost use Rattle.git_asked.specs.Asks.{Asks, chamber_line};
ghost use Rattle.git_asked.specs.Findings.{Finds};
ghost use Rattle.git_walk.specs.Walks.{Marked};
ghost use Rattle.git_check_chambers.specs.Families.{IsFirstReason};
ghost use Rattle.git_check_chambers.specs.Judged.{AreHoldings, AsksHead, IsSizedChamber};

use crate::chambers::chambers_finding;
use crate::lines::found_in_head;
use crate::own::count;
use git_asked::{Finding, Reason, earlier};
use git_base::NoMemory;
use git_chamber::holding;
use git_listing::{ListedChamber, Listing};
use git_machine::Sig;
use git_orbit::Cones;
use git_stages::add;
use git_walk::reached;
use std::alloc::Global;

/// To each chamber the cones that hold its rays.
fn holdings(alloc: Global, cones: &Cones, chambers: &[ListedChamber]) -> Result<Vec<Sig>, NoMemory>
    requires { All (IsSizedChamber cones.now.k) (map chamber_of chambers.now) }
    ensures { IfOk result (λ v. AreHoldings cones.now (map chamber_of chambers.now) v.items) }
{
    let mut sigs = Vec::new(alloc);
    for c in chambers {
        add(&mut sigs, holding(alloc, cones, &c.rays)?)?;
    }
    Ok(sigs)
}

/// A mark for each signature: whether it is the start.
fn start_marks(alloc: Global, sigs: &[Sig], start: &Sig) -> Result<Vec<bool>, NoMemory>
    ensures count { IfOk result (λ v. length v.items ≡ length sigs.now) }
    ensures each { IfOk result (λ v. (i : ℕ) → Marked v.items i ↔ (slice_get sigs.now i ≡ Some start.now)) }
{
    let mut marks = Vec::new(alloc);
    for sig in sigs {
        add(&mut marks, sig.same(start))?;
    }
    Ok(marks)
}

/// Whether one is marked.
fn has_mark(marks: &[bool]) -> bool
    ensures { IsTrue result ↔ ((i : ℕ) × Marked marks.now i) }
{
    for i in 0..marks.len() {
        if marks[i] {
            return true;
        }
    }
    false
}

/// The first reason of the head of a listing with the right sizes.
fn head_reason(is_counted: bool, is_started: bool) -> Option<Reason>
    ensures { (fan : Fan) (start : Signature) (r : ℕ) (l : ListingValue) → l.k ≡ fan.k → l.r ≡ r → IsTrue is_counted ↔ (l.cones ≡ length fan.list)
        → IsTrue is_started ↔ ((b : ℕ) × IsFirstPlace fan start l.chambers b) → IsFirstReason (AsksHead fan start r l) result }
{
    if !is_counted {
        return Some(Reason::ConeCount);
    }
    if is_started {
        None
    } else {
        Some(Reason::FirstMissing)
    }
}

/// The first finding of a listing with the right sizes.
fn judged(
    alloc: Global,
    cones: &Cones,
    start: &Sig,
    listing: &Listing,
) -> Result<Option<Finding>, NoMemory>
    requires rows { listing.now.k ≡ cones.now.k }
    requires sized { All (IsSizedChamber cones.now.k) (listing_of listing.now).chambers }
    requires short { chamber_line (listing_of listing.now).chambers (length (listing_of listing.now).chambers) < 2 ^ 32 }
    ensures { IfOk result (λ f. Finds (Asks cones.now start.now listing.now.r (listing_of listing.now)) f) }
{
    let chambers: &[ListedChamber] = &listing.chambers;
    let sigs = holdings(alloc, cones, chambers)?;
    let starts = start_marks(alloc, &sigs, start)?;
    let marks = reached(alloc, chambers, &starts)?;
    let head = head_reason(listing.cones == count(cones), has_mark(&starts));
    let each = chambers_finding(
        alloc,
        cones,
        start,
        listing.version,
        chambers,
        &sigs,
        &marks,
    )?;
    Ok(earlier(found_in_head(head), each))
}

/// The first reason for which what is asked of a listing does not hold, at its first line. `start` is the
/// signature with which all begins, and `columns` the number of columns.
///
/// Nothing is known of the listing but the limits of its text, which has fewer than 2^32 lines.
pub fn listing_finding(
    alloc: Global,
    cones: &Cones,
    start: &Sig,
    columns: u32,
    listing: &Listing,
) -> Result<Option<Finding>, NoMemory>
    requires fits { FitsListing (listing_of listing.now) }
    requires short { chamber_line (listing_of listing.now).chambers (length (listing_of listing.now).chambers) < 2 ^ 32 }
    ensures { IfOk result (λ f. Finds (Asks cones.now start.now columns (listing_of listing.now)) f) }
{
    if listing.k as usize != cones.k || listing.r != columns {
        return Ok(Some(Finding {
            reason: Reason::Shape,
            line: 2,
        }));
    }
    judged(alloc, cones, start, listing)
}
