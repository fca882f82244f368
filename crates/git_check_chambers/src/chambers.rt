//! What is asked of the chambers of a listing, one by one.
ghost use Rattle.std.specs.Prelude.{◌≡◌, ◌↔◌, ◌+◌, ◌<◌, ◌^◌, ℕ, List, All, IfOk, IsTrue, Some, length, map, slice_get};
ghost use Rattle.git_listing.specs.Listings.{Chamber as ChamberValue, RaysPrecede};
ghost use Rattle.git_orbit.specs.Orbits.{Fan};
ghost use Rattle.git_listing.specs.Views.{chamber_of};
ghost use Rattle.git_machine.specs.Signatures.{Signature};
ghost use Rattle.git_asked.specs.Asked.{AsksOrder, IsNamedFromFirst};
ghost use Rattle.git_asked.specs.Asks.{chamber_line};
ghost use Rattle.git_asked.specs.Findings.{Finds};
ghost use Rattle.git_check_chambers.specs.Families.{IsFirstReason, OfEach};
ghost use Rattle.git_check_chambers.specs.Judged.{AreHoldings, AreReached, AsksChamber, AsksOwn, ChamberAt, IsSizedChamber};

use crate::facets::facets_finding;
use crate::lines::{facets_begin, found_in_chamber, line_after};
use crate::own::own_reason;
use git_asked::{Finding, Reason, earlier};
use git_base::NoMemory;
use git_listing::ListedChamber;
use git_machine::Sig;
use git_orbit::Cones;
use std::alloc::Global;
use std::cmp::Ordering;

/// Whether the rays of the first chamber come before those of the second.
fn precedes(a: &ListedChamber, b: &ListedChamber) -> bool
    ensures { IsTrue result ↔ RaysPrecede (chamber_of a.now) (chamber_of b.now) }
{
    a.rays.as_slice().cmp(b.rays.as_slice()) == Ordering::Less
}

/// Whether the chamber at a place comes after the one before.
fn is_in_order(chambers: &[ListedChamber], place: usize) -> bool
    requires { place < length chambers.now }
    ensures { IsTrue result ↔ AsksOrder (map chamber_of chambers.now) place }
{
    if place == 0 {
        return true;
    }
    precedes(&chambers[place - 1], &chambers[place])
}

/// The first of three reasons of a chamber: that it is out of order, its own, and that it isn't reached.
fn first_of(in_order: bool, own: Option<Reason>, is_reached: bool) -> Option<Reason>
    ensures { (fan : Fan) (start : Signature) (cs : List ChamberValue) (i : ℕ) (c : ChamberValue) → IsTrue in_order ↔ AsksOrder cs i → IsFirstReason (AsksOwn fan c) own
        → IsTrue is_reached ↔ IsNamedFromFirst fan start cs i → IsFirstReason (AsksChamber fan start cs i c) result }
{
    if !in_order {
        return Some(Reason::Order);
    }
    if let Some(reason) = own {
        return Some(reason);
    }
    if is_reached {
        return None;
    }
    Some(Reason::NotReached)
}

/// The first finding of the chamber at a place, whose line is given.
fn chamber_finding(
    alloc: Global,
    cones: &Cones,
    start: &Sig,
    version: u32,
    chambers: &[ListedChamber],
    sigs: &[Sig],
    is_reached: bool,
    place: usize,
    line: u32,
) -> Result<Option<Finding>, NoMemory>
    requires sized { All (IsSizedChamber cones.now.k) (map chamber_of chambers.now) }
    requires holdings { AreHoldings cones.now (map chamber_of chambers.now) sigs.now }
    requires place { place < length chambers.now }
    requires line { line ≡ chamber_line (map chamber_of chambers.now) place }
    requires short { chamber_line (map chamber_of chambers.now) (length chambers.now) < 2 ^ 32 }
    requires reached { IsTrue is_reached ↔ IsNamedFromFirst cones.now start.now (map chamber_of chambers.now) place }
    ensures { IfOk result (λ f. (c : ChamberValue) → slice_get (map chamber_of chambers.now) place ≡ Some c → Finds (ChamberAt cones.now start.now version (map chamber_of chambers.now) place c) f) }
{
    let _ = start;
    let c = &chambers[place];
    let own = own_reason(alloc, cones, c, &sigs[place])?;
    let reason = first_of(is_in_order(chambers, place), own, is_reached);
    let begin = facets_begin(c, line);
    let facets = facets_finding(alloc, cones, version, chambers, sigs, c, place, begin)?;
    Ok(earlier(found_in_chamber(reason, c, line), facets))
}

/// The first finding of all chambers, of which the marks say whether they are reached.
pub(crate) fn chambers_finding(
    alloc: Global,
    cones: &Cones,
    start: &Sig,
    version: u32,
    chambers: &[ListedChamber],
    sigs: &[Sig],
    marks: &[bool],
) -> Result<Option<Finding>, NoMemory>
    requires sized { All (IsSizedChamber cones.now.k) (map chamber_of chambers.now) }
    requires holdings { AreHoldings cones.now (map chamber_of chambers.now) sigs.now }
    requires marks { AreReached cones.now start.now (map chamber_of chambers.now) marks.now }
    requires short { chamber_line (map chamber_of chambers.now) (length chambers.now) < 2 ^ 32 }
    ensures { IfOk result (λ f. Finds (OfEach (ChamberAt cones.now start.now version (map chamber_of chambers.now)) (map chamber_of chambers.now)) f) }
{
    let mut first = None;
    let mut line = 5;
    for place in 0..chambers.len() {
        let finding = chamber_finding(
            alloc,
            cones,
            start,
            version,
            chambers,
            sigs,
            marks[place],
            place,
            line,
        )?;
        first = earlier(first, finding);
        line = line_after(&chambers[place], line);
    }
    Ok(first)
}
