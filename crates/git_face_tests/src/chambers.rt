//! Listings of chambers that are given as cones of columns.
ghost use Rattle.std.specs.Prelude.{◌≡◌, ◌≤◌, IsTrue, IfOk, map};
ghost use Rattle.git_listing.specs.Views.{chamber_of, listing_of};
ghost use Rattle.git_allcones.specs.Cones.{AreShortCones, IsShortCone, cone_of_chamber, cones_of, normal_of};

use git_canon::Canon;
use git_ints::IVec;
use git_listing::{ListedChamber, ListedFacet, ListedSide, Listing};
use git_text::read_input;
use std::alloc::Global;
use std::test::Fail;

/// The cone of the columns of an input's matrix.
fn cone(alloc: Global, text: &str) -> Result<Canon, Fail> {
    let bytes = text.as_bytes();
    if bytes.len() > 1000 {
        return Err(Fail::new("a text of the table is long"));
    }
    let input = read_input(alloc, bytes)?;
    let k = input.grading.k();
    Ok(Canon::of_generators(alloc, k, input.grading.columns())?)
}

/// Facets that are all boundary.
fn boundary(alloc: Global, normals: &[IVec]) -> Result<Vec<ListedFacet>, Fail>
    ensures { IfOk result (λ v. map normal_of v.items ≡ normals.now) }
{
    let mut out = Vec::new(alloc);
    for &normal in normals {
        out.push(ListedFacet {
            normal,
            side: ListedSide::Boundary,
        })?;
    }
    Ok(out)
}

/// A cone as a chamber, with its first ray as its weight.
fn chamber(alloc: Global, canon: Canon) -> Result<ListedChamber, Fail>
    ensures { IfOk result (λ c. IsShortCone canon.k (cone_of_chamber (chamber_of c))) }
{
    let facets = boundary(alloc, &canon.facets)?;
    let weight = IVec::of(&[0]);
    Ok(ListedChamber {
        rays: canon.rays,
        weight,
        crossed: None,
        facets,
    })
}

/// Whether the vectors of a cone have `k` entries.
fn has_entries(canon: &Canon, k: usize) -> bool
    ensures { IsTrue result → canon.now.k ≡ k }
{
    match canon.rays.first() {
        Some(ray) => ray.len() == k,
        None => false,
    }
}

/// The listing of the cones of some inputs' columns, all of dimension `k`.
pub fn listing(alloc: Global, k: u32, texts: &[&str]) -> Result<Listing, Fail>
    requires some { 1 ≤ k }
    requires six { k ≤ 6 }
    ensures { IfOk result (λ l. AreShortCones l.k (cones_of (listing_of l))) }
{
    let mut chambers = Vec::new(alloc);
    for text in texts {
        let canon = cone(alloc, text)?;
        if !has_entries(&canon, k as usize) {
            return Err(Fail::new("a matrix of the table has other rows"));
        }
        chambers.push(chamber(alloc, canon)?)?;
    }
    Ok(Listing {
        version: 2,
        k,
        r: 1,
        cones: 1,
        chambers,
    })
}
