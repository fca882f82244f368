//! The counts of a listing.
ghost use Rattle.std.specs.Prelude.{◌≡◌, IfOk};
ghost use Rattle.std.specs.List.{sum_by, count_by};
ghost use Rattle.git_listing.specs.Views.{listing_of, side_of};
ghost use Rattle.git_replies.specs.Counts.{counts_text, is_boundary, is_inner, tally_text};

use git_base::NoMemory;
use git_listing::{ListedChamber, ListedFacet, ListedSide, Listing};
use std::alloc::Global;
use std::fmt::Write;

/// Whether the side is an inner wall.
fn is_wall(side: ListedSide) -> bool
    ensures { result ≡ is_inner (side_of side) }
{
    match side {
        ListedSide::Inner { .. } => true,
        ListedSide::Boundary => false,
    }
}

/// Whether the side lies on the boundary.
fn is_outer(side: ListedSide) -> bool
    ensures { result ≡ is_boundary (side_of side) }
{
    match side {
        ListedSide::Inner { .. } => false,
        ListedSide::Boundary => true,
    }
}

/// How many of the facets are inner walls.
fn inner_among(facets: &[ListedFacet]) -> usize
    ensures { result ≡ count_by (λ f. is_inner (side_of f.side)) facets.now }
{
    facets.iter().filter(|facet| is_wall(facet.side)).count()
}

/// How many of the facets lie on the boundary.
fn boundary_among(facets: &[ListedFacet]) -> usize
    ensures { result ≡ count_by (λ f. is_boundary (side_of f.side)) facets.now }
{
    facets.iter().filter(|facet| is_outer(facet.side)).count()
}

/// How many facets of all chambers are inner walls.
fn inner_facets(chambers: &[ListedChamber]) -> u128
    ensures { result ≡ sum_by (λ c. count_by (λ f. is_inner (side_of f.side)) c.facets.items) chambers.now }
{
    let mut count = 0u128;
    for chamber in chambers {
        count += inner_among(&chamber.facets) as u128;
    }
    count
}

/// How many facets of all chambers lie on the boundary.
fn boundary_facets(chambers: &[ListedChamber]) -> u128
    ensures { result ≡ sum_by (λ c. count_by (λ f. is_boundary (side_of f.side)) c.facets.items) chambers.now }
{
    let mut count = 0u128;
    for chamber in chambers {
        count += boundary_among(&chamber.facets) as u128;
    }
    count
}

/// The line of so many cones, chambers, inner walls and facets on the boundary.
fn tally(
    alloc: Global,
    cones: u32,
    chambers: usize,
    inner: u128,
    boundary: u128,
) -> Result<Vec<u8>, NoMemory>
    ensures { IfOk result (λ text. text.items ≡ tally_text cones chambers inner boundary) }
{
    let mut text = String::new(alloc);
    write!(
        text,
        "cones {cones} chambers {chambers} inner {inner} boundary {boundary}\n"
    )?;
    Ok(text.into_bytes())
}

/// The line of a listing's counts.
pub fn counts_line(alloc: Global, listing: &Listing) -> Result<Vec<u8>, NoMemory>
    ensures { IfOk result (λ text. text.items ≡ counts_text (listing_of listing.now)) }
{
    let chambers: &[ListedChamber] = &listing.chambers;
    let inner = inner_facets(chambers);
    let boundary = boundary_facets(chambers);
    tally(alloc, listing.cones, chambers.len(), inner, boundary)
}
