//! The chambers of a listing as cones by their rays and the normals of their facets.
ghost use Rattle.std.specs.Prelude.{◌≡◌, IfOk, map};
ghost use Rattle.git_listing.specs.Views.{chamber_of, listing_of};
ghost use Rattle.git_allcones.specs.Cones.{cone_of_chamber, cones_of, cone_of, normal_of};

use git_base::NoMemory;
use git_ints::IVec;
use git_listing::{ListedChamber, ListedFacet, Listing};
use git_stages::{add, append};
use std::alloc::Global;

/// A cone by its rays and the normals of its facets.
#[derive(Drop)]
pub struct ListedCone {
    pub rays: Vec<IVec>,
    pub facets: Vec<IVec>,
}

/// The normals of the facets.
fn normals(alloc: Global, facets: &[ListedFacet]) -> Result<Vec<IVec>, NoMemory>
    ensures { IfOk result (λ v. v.items ≡ map normal_of facets.now) }
{
    let mut out = Vec::new(alloc);
    for f in facets {
        add(&mut out, f.normal)?;
    }
    Ok(out)
}

/// The same vectors.
pub fn copied(alloc: Global, vs: &[IVec]) -> Result<Vec<IVec>, NoMemory>
    ensures { IfOk result (λ v. v.items ≡ vs.now) }
{
    let mut out = Vec::new(alloc);
    append(&mut out, vs)?;
    Ok(out)
}

/// The cone of a chamber.
fn listed_cone(alloc: Global, chamber: &ListedChamber) -> Result<ListedCone, NoMemory>
    ensures { IfOk result (λ c. cone_of c ≡ cone_of_chamber (chamber_of chamber.now)) }
{
    let rays = copied(alloc, &chamber.rays)?;
    let facets = normals(alloc, &chamber.facets)?;
    Ok(ListedCone { rays, facets })
}

/// The cones of all chambers.
pub fn listed_cones(alloc: Global, listing: &Listing) -> Result<Vec<ListedCone>, NoMemory>
    ensures { IfOk result (λ v. map cone_of v.items ≡ cones_of (listing_of listing.now)) }
{
    let mut out = Vec::new(alloc);
    for chamber in &listing.chambers {
        let cone = listed_cone(alloc, chamber)?;
        add(&mut out, cone)?;
    }
    Ok(out)
}
