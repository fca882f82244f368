//! The lines of the chambers.
ghost use Rattle.std.specs.Prelude.{◌≡◌, ◌+◌, ◌≤◌, ◌<◌, codes, map, IfOk};
ghost use Rattle.git_lines.specs.Reading.{Gives};
ghost use Rattle.git_lines.specs.Views.{rest_of_text};
ghost use Rattle.git_strictlines.specs.Faults.{GivesUnlessFull};
ghost use Rattle.git_strictlines.specs.Reading.{some_at};
ghost use Rattle.git_listing.specs.ListingReading.{ray_line, facet_line, Numbered, mark_at, chamber_at, chambers_at};
ghost use Rattle.git_listing.specs.Views.{facet_of, chamber_of};

use crate::limits::{ENTRY_HIGH, ENTRY_LOW, LAST_CONE, LISTED, WEIGHT_HIGH, WEIGHT_LOW};
use crate::listing::{ListedChamber, ListedFacet};
use crate::vectors::{facet, vector};
use git_ints::IVec;
use git_limits::ROWS;
use git_lines::{FormFault, FormKind, Lines};
use git_strictlines::{ReadFault, begins_with, number};
use std::alloc::Global;

/// A limit that the next line passes.
fn past_limit(lines: &Lines<'_>) -> ReadFault
    ensures { result ≡ ReadFault.Form (record { line = lines.now.line; column = 1; kind = FormKind.Range }) }
{
    ReadFault::Form(FormFault {
        line: lines.line,
        column: 1,
        kind: FormKind::Range,
    })
}

fn rays(alloc: Global, lines: &mut Lines<'_>, k: usize) -> Result<Vec<IVec>, ReadFault>
    requires some { 1 ≤ k }
    requires few { k ≤ ROWS }
    ensures reads { GivesUnlessFull (λ v. (v.items, rest_of_text lines.new)) result (some_at (codes "ray") LISTED (ray_line k) (rest_of_text lines.old)) }
    ensures bytes { lines.new.bytes.now ≡ lines.old.bytes.now }
{
    let mut rays = Vec::new(alloc);
    let first = vector(lines, b"ray", k, ENTRY_LOW, ENTRY_HIGH)?;
    rays.push(first)?;
    while begins_with(lines, b"ray") {
        if rays.len() >= LISTED as usize {
            return Err(past_limit(lines));
        }
        let next = vector(lines, b"ray", k, ENTRY_LOW, ENTRY_HIGH)?;
        rays.push(next)?;
    }
    Ok(rays)
}

fn facets(
    alloc: Global,
    lines: &mut Lines<'_>,
    version: u32,
    k: usize,
) -> Result<Vec<ListedFacet>, ReadFault>
    requires some { 1 ≤ k }
    requires few { k ≤ ROWS }
    ensures reads { GivesUnlessFull (λ v. (map facet_of v.items, rest_of_text lines.new)) result (some_at (codes "facet") LISTED (facet_line version k) (rest_of_text lines.old)) }
    ensures bytes { lines.new.bytes.now ≡ lines.old.bytes.now }
{
    let mut facets = Vec::new(alloc);
    let first = facet(lines, version, k)?;
    facets.push(first)?;
    while begins_with(lines, b"facet") {
        if facets.len() >= LISTED as usize {
            return Err(past_limit(lines));
        }
        let next = facet(lines, version, k)?;
        facets.push(next)?;
    }
    Ok(facets)
}

/// The line of a mark, where it comes and the version has marks.
#[tactic(auto, unfolding(crate::specs::ListingReading::mark_at))]
fn mark(lines: &mut Lines<'_>, version: u32) -> Result<Option<u32>, FormFault>
    ensures reads { Gives (λ m. (m, rest_of_text lines.new)) result (mark_at version (rest_of_text lines.old)) }
    ensures bytes { lines.new.bytes.now ≡ lines.old.bytes.now }
{
    if version == 1 {
        return Ok(None);
    }
    if !begins_with(lines, b"crossed") {
        return Ok(None);
    }
    let cone = number(lines, b"crossed", 0, LAST_CONE)?;
    Ok(Some(cone))
}

#[tactic(auto, unfolding(crate::specs::ListingReading::chamber_at))]
fn chamber(
    alloc: Global,
    lines: &mut Lines<'_>,
    version: u32,
    k: usize,
    place: u32,
) -> Result<ListedChamber, ReadFault>
    requires some { 1 ≤ k }
    requires few { k ≤ ROWS }
    ensures reads { GivesUnlessFull (λ c. (chamber_of c, record { number = place + 1; text = rest_of_text lines.new })) result
        (chamber_at version k (record { number = place; text = rest_of_text lines.old })) }
    ensures bytes { lines.new.bytes.now ≡ lines.old.bytes.now }
{
    number(lines, b"chamber", place, place)?;
    let rays = rays(alloc, lines, k)?;
    let weight = vector(lines, b"weight", k, WEIGHT_LOW, WEIGHT_HIGH)?;
    let crossed = mark(lines, version)?;
    let facets = facets(alloc, lines, version, k)?;
    Ok(ListedChamber {
        rays,
        weight,
        crossed,
        facets,
    })
}

/// So many chambers, numbered from 1.
pub(crate) fn chambers(
    alloc: Global,
    lines: &mut Lines<'_>,
    version: u32,
    k: usize,
    count: u32,
) -> Result<Vec<ListedChamber>, ReadFault>
    requires some { 1 ≤ k }
    requires few { k ≤ ROWS }
    requires count { count ≤ LISTED }
    ensures reads { GivesUnlessFull (λ v. (map chamber_of v.items, record { number = count + 1; text = rest_of_text lines.new })) result
        (chambers_at version k count (record { number = 1; text = rest_of_text lines.old })) }
    ensures bytes { lines.new.bytes.now ≡ lines.old.bytes.now }
{
    let mut chambers = Vec::with_capacity(alloc, count as usize)?;
    for i in 0..count {
        let next = chamber(alloc, lines, version, k, i + 1)?;
        chambers.push(next)?;
    }
    Ok(chambers)
}
