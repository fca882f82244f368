//! The walk from some chambers of a listing by listed facets.
ghost use Rattle.std.specs.Prelude.{◌≡◌, ◌↔◌, ◌+◌, ◌<◌, ℕ, [], IfOk, OnOk, Some, length, map, slice_get};
ghost use Rattle.git_lemmas.specs.Members.{Member};
ghost use Rattle.git_listing.specs.Listings.{Chamber as ChamberValue};
ghost use Rattle.git_listing.specs.Views.{chamber_of, facet_of};
ghost use Rattle.git_walk.specs.Walks.{AreLed, IsWalk, Marked, Marks, NamedBy};

use git_base::NoMemory;
use git_listing::{ListedChamber, ListedFacet, ListedSide};
use std::alloc::{AllocError, Global};

/// Marks the place with this number, from 1, where there is one, and notes it if it wasn't marked.
fn mark(marks: &mut Vec<bool>, pending: &mut Vec<usize>, number: u32) -> Result<(), AllocError>
    ensures { OnOk result (Marks (λ i. number ≡ i + 1) marks.old.items marks.new.items pending.old.items pending.new.items) }
{
    if number == 0 {
        return Ok(());
    }
    let place = number as usize - 1;
    if place >= marks.len() {
        return Ok(());
    }
    if marks[place] {
        return Ok(());
    }
    marks[place] = true;
    pending.push(place)?;
    Ok(())
}

/// Marks the places that the facets name.
fn mark_named(
    marks: &mut Vec<bool>,
    pending: &mut Vec<usize>,
    facets: &[ListedFacet],
) -> Result<(), AllocError>
    ensures { OnOk result (Marks (NamedBy (map facet_of facets.now)) marks.old.items marks.new.items pending.old.items pending.new.items) }
{
    for facet in facets {
        match facet.side {
            ListedSide::Boundary => {}
            ListedSide::Inner { chamber, matched } => {
                let _matched = matched;
                mark(marks, pending, chamber)?;
            }
        }
    }
    Ok(())
}

/// Marks the places that the facets of the chamber at a place name.
fn look_at(
    marks: &mut Vec<bool>,
    pending: &mut Vec<usize>,
    chambers: &[ListedChamber],
    place: usize,
) -> Result<(), AllocError>
    requires { place < length chambers.now }
    ensures { OnOk result ((c : ChamberValue) → slice_get (map chamber_of chambers.now) place ≡ Some c → Marks (NamedBy c.facets) marks.old.items marks.new.items pending.old.items pending.new.items) }
{
    mark_named(marks, pending, &chambers[place].facets)?;
    Ok(())
}

/// The marked places.
fn marked_places(alloc: Global, marks: &[bool]) -> Result<Vec<usize>, AllocError>
    ensures { IfOk result (λ v. (i : ℕ) → Member i v.items ↔ Marked marks.now i) }
{
    let mut places = Vec::new(alloc);
    for i in 0..marks.len() {
        if marks[i] {
            places.push(i)?;
        }
    }
    Ok(places)
}

/// A copy of the marks.
fn copied(alloc: Global, starts: &[bool]) -> Result<Vec<bool>, AllocError>
    ensures { IfOk result (λ v. v.items ≡ starts.now) }
{
    let mut marks = Vec::new(alloc);
    marks.extend_from_slice(starts)?;
    Ok(marks)
}

/// Looks at the facets of all pending places, until none is left.
fn walked(
    chambers: &[ListedChamber],
    starts: &[bool],
    mut marks: Vec<bool>,
    mut pending: Vec<usize>,
) -> Result<Vec<bool>, AllocError>
    requires { IsWalk (map chamber_of chambers.now) (Marked starts.now) marks.items pending.items }
    ensures { IfOk result (λ v. IsWalk (map chamber_of chambers.now) (Marked starts.now) v.items []) }
{
    let _starts = starts;
    while let Some(place) = pending.pop() {
        look_at(&mut marks, &mut pending, chambers, place)?;
    }
    Ok(marks)
}

/// The walk from the marked chambers to its end.
fn walk(alloc: Global, chambers: &[ListedChamber], starts: &[bool]) -> Result<Vec<bool>, AllocError>
    requires { length starts.now ≡ length chambers.now }
    ensures { IfOk result (λ v. AreLed (map chamber_of chambers.now) starts.now v.items) }
{
    let marks = copied(alloc, starts)?;
    let pending = marked_places(alloc, &marks)?;
    let marks = walked(chambers, starts, marks, pending)?;
    Ok(marks)
}

/// Which chambers of a listing are reached from those that `starts` marks, by facets that name a chamber: a
/// mark for each chamber, in their order. A number that names no chamber leads nowhere.
///
/// # Errors
///
/// `NoMemory`: memory ran out.
pub fn reached(
    alloc: Global,
    chambers: &[ListedChamber],
    starts: &[bool],
) -> Result<Vec<bool>, NoMemory>
    requires { length starts.now ≡ length chambers.now }
    ensures { IfOk result (λ v. AreLed (map chamber_of chambers.now) starts.now v.items) }
{
    match walk(alloc, chambers, starts) {
        Ok(marks) => Ok(marks),
        Err(_) => Err(NoMemory),
    }
}
