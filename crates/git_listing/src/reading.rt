//! The reader.
ghost use Rattle.std.specs.Prelude.{◌≡◌, ◌⊎◌, ◌≤◌, ◌<◌, ◌-◌, ◌^◌, ◌++◌, ℕ, List, length, take, IfOk, IsErrOf, MatchResult};
ghost use Rattle.git_lines.specs.declared.fault.FormKind.{FormKind};
ghost use Rattle.git_lines.specs.Lines.{text_from};
ghost use Rattle.git_lines.specs.Views.{rest_of_text};
ghost use Rattle.git_strictlines.specs.Faults.{GivesUnlessFull};
ghost use Rattle.git_listing.specs.Limits.{FitsListing};
ghost use Rattle.git_listing.specs.Listings.{Listing as ListingValue};
ghost use Rattle.git_listing.specs.ListingReading.{listing_at, IsFirstFault};
ghost use Rattle.git_listing.specs.ListingText.{listing_text};
ghost use Rattle.git_listing.specs.Views.{listing_of};

use crate::chambers::chambers;
use crate::fault::ListingFault;
use crate::heads::first_lines;
use crate::listing::Listing;
use git_lines::Lines;
use git_strictlines::{ReadFault, end};
use std::alloc::Global;

#[tactic(auto, unfolding(crate::specs::ListingReading::listing_at))]
fn listing(alloc: Global, lines: &mut Lines<'_>) -> Result<Listing, ReadFault>
    ensures reads { GivesUnlessFull (λ l. (listing_of l, rest_of_text lines.new)) result (listing_at (rest_of_text lines.old)) }
    ensures bytes { lines.new.bytes.now ≡ lines.old.bytes.now }
{
    let head = first_lines(lines)?;
    let chambers = chambers(alloc, lines, head.version, head.k as usize, head.count)?;
    end(lines)?;
    Ok(Listing {
        version: head.version,
        k: head.k,
        r: head.r,
        cones: head.cones,
        chambers,
    })
}

/// What is read, with the number of the line after it and the place of its first byte.
#[derive(Drop)]
struct Found {
    listing: Listing,
    line: u32,
    at: usize,
}

fn front(alloc: Global, bytes: &[u8]) -> Result<Found, ReadFault>
    requires { length bytes.now < 2 ^ 32 - 1 }
    ensures reads { GivesUnlessFull (λ x. (listing_of x.listing, text_from x.line x.at bytes.now)) result (listing_at (text_from 1 0 bytes.now)) }
    ensures within { IfOk result (λ x. x.at ≤ length bytes.now) }
{
    let mut lines = Lines::new(bytes);
    let listing = listing(alloc, &mut lines)?;
    Ok(Found {
        listing,
        line: lines.line,
        at: lines.at,
    })
}

/// The listing at the front of the bytes, through its line `end`, and how many bytes it takes. What follows is not looked at.
pub fn read(alloc: Global, bytes: &[u8]) -> Result<(Listing, usize), ListingFault>
    requires { length bytes.now < 2 ^ 32 - 1 }
    ensures found { IfOk result (λ x. FitsListing (listing_of x.0) × (take x.1 bytes.now ≡ listing_text (listing_of x.0)) × (x.1 ≤ length bytes.now)) }
    ensures only { (l : ListingValue) (rest : List ℕ) → FitsListing l → bytes.now ≡ listing_text l ++ rest
        → MatchResult result (λ x. (listing_of x.0 ≡ l) × (x.1 ≡ length (listing_text l))) (λ e. e ≡ ListingFault.NoMemory) }
    ensures fault { (line : ℕ) (kind : FormKind) → IsErrOf result (ListingFault.BadListing line kind) → IsFirstFault bytes.now line kind }
    ensures first { (line : ℕ) (kind : FormKind) → IsFirstFault bytes.now line kind
        → MatchResult result (λ x. ⊥) (λ e. (e ≡ ListingFault.BadListing line kind) ⊎ (e ≡ ListingFault.NoMemory)) }
{
    let found = front(alloc, bytes)?;
    Ok((found.listing, found.at))
}
