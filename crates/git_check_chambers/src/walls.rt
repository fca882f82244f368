//! Lists of vectors, and walls that two chambers share.
ghost use Rattle.std.specs.Prelude.{◌≡◌, ◌↔◌, All, Contains, IfOk, IsTrue, map};
ghost use Rattle.git_defs.specs.Vectors.{AllOfLength};
ghost use Rattle.git_stages.specs.Short.{IsShort};
ghost use Rattle.git_cone_faces.specs.Faces.{on_wall};
ghost use Rattle.git_listing.specs.Listings.{normals_of};
ghost use Rattle.git_listing.specs.Views.{chamber_of, facet_of};
ghost use Rattle.git_chamber.specs.Listings.{IsMatched};

use git_base::NoMemory;
use git_ints::IVec;
use git_listing::{ListedChamber, ListedFacet};
use git_stages::{add, is_level, is_same, negated};
use std::alloc::Global;

/// Whether two lists have the same vectors in the same order.
pub(crate) fn are_same(us: &[IVec], vs: &[IVec]) -> bool
    ensures { IsTrue result ↔ (us.now ≡ vs.now) }
{
    if us.len() != vs.len() {
        return false;
    }
    for i in 0..us.len() {
        if !is_same(&us[i], &vs[i]) {
            return false;
        }
    }
    true
}

/// The normals of facets.
pub(crate) fn normals(alloc: Global, facets: &[ListedFacet]) -> Result<Vec<IVec>, NoMemory>
    ensures { IfOk result (λ v. v.items ≡ map (λ f. f.normal) facets.now) }
{
    let mut out = Vec::new(alloc);
    for facet in facets {
        add(&mut out, facet.normal)?;
    }
    Ok(out)
}

/// Whether one of the facets has the normal.
fn has_normal(facets: &[ListedFacet], normal: &IVec) -> bool
    ensures { IsTrue result ↔ Contains (map (λ f. f.normal) facets.now) normal.now }
{
    for facet in facets {
        if is_same(&facet.normal, normal) {
            return true;
        }
    }
    false
}

/// Those of the vectors at which the normal is 0, in their order.
fn wall(alloc: Global, k: usize, normal: &IVec, vs: &[IVec]) -> Result<Vec<IVec>, NoMemory>
    requires normal { IsShort k normal.now }
    requires short { All (IsShort k) vs.now }
    ensures { IfOk result (λ w. w.items ≡ on_wall normal.now vs.now) }
{
    let mut wall = Vec::new(alloc);
    for v in vs {
        if is_level(k, normal, v) {
            add(&mut wall, *v)?;
        }
    }
    Ok(wall)
}

/// Whether the other chamber shares the whole wall of a chamber with these rays: it has the facet turned
/// round, and the same rays on it.
pub(crate) fn is_shared(
    alloc: Global,
    k: usize,
    normal: &IVec,
    rays: &[IVec],
    other: &ListedChamber,
) -> Result<bool, NoMemory>
    requires normal { IsShort k normal.now }
    requires rays { All (IsShort k) rays.now }
    requires other { All (IsShort k) other.now.rays.items }
    ensures { IfOk result (λ b. IsTrue b ↔ IsMatched normal.now rays.now (chamber_of other.now)) }
{
    if !has_normal(&other.facets, &negated(k, normal)) {
        return Ok(false);
    }
    let one = wall(alloc, k, normal, rays)?;
    let two = wall(alloc, k, normal, &other.rays)?;
    Ok(are_same(&one, &two))
}
