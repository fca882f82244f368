//! Whether two cones meet in a face of both.
ghost use Rattle.std.specs.Prelude.{◌≡◌, ◌↔◌, ◌≤ℤ◌, ◌≤◌, ◌<◌, ◌+◌, ◌^◌, ◌++◌, All, Contains, IfOk, IfErr, IsTrue, length, pos};
ghost use Rattle.git_defs.specs.Vectors.{Vector, dot};
ghost use Rattle.git_defs.specs.Cones.{AreRays, Cut, InCone};
ghost use Rattle.git_dd.specs.Stops.{IsWideFault};
ghost use Rattle.git_stages.specs.Short.{IsShort};
ghost use Rattle.git_cone_faces.specs.Faces.{InBoth, IsFace};
ghost use Rattle.git_allcones.specs.Cones.{IsShortCone, cone_of};
ghost use Rattle.git_allcones.specs.Meets.{AreLevel, IsLevelOn};
ghost use Rattle.git_allcones.specs.Verdicts.{PairIsNarrow, PairMeets};

use crate::cones::ListedCone;
use git_base::NoMemory;
use git_dd::{StageFault, full_rays};
use git_ints::IVec;
use git_stages::{add, is_level, joined, product};
use std::alloc::Global;

/// Whether a normal isn't negative at a vector.
fn is_beside(k: usize, n: &IVec, x: &IVec) -> bool
    requires n { IsShort k n.now }
    requires x { IsShort k x.now }
    ensures { IsTrue result ↔ (pos 0 ≤ℤ dot n.now x.now) }
{
    product(k, n, x) >= 0
}

/// Whether the cone that the facets cut out holds a vector.
fn is_inside(k: usize, facets: &[IVec], x: &IVec) -> bool
    requires facets { All (IsShort k) facets.now }
    requires x { IsShort k x.now }
    ensures { IsTrue result ↔ Cut k facets.now x.now }
{
    for n in facets {
        if !is_beside(k, n, x) {
            return false;
        }
    }
    true
}

/// Whether a normal is 0 at each of the vectors.
fn is_level_on(k: usize, normal: &IVec, vs: &[IVec]) -> bool
    requires normal { IsShort k normal.now }
    requires vs { All (IsShort k) vs.now }
    ensures { IsTrue result ↔ IsLevelOn normal.now vs.now }
{
    for v in vs {
        if !is_level(k, normal, v) {
            return false;
        }
    }
    true
}

/// Those of the normals that are 0 at each of the vectors.
fn level_normals(
    alloc: Global,
    k: usize,
    normals: &[IVec],
    vs: &[IVec],
) -> Result<Vec<IVec>, NoMemory>
    requires normals { All (IsShort k) normals.now }
    requires vs { All (IsShort k) vs.now }
    ensures { IfOk result (λ v. AreLevel normals.now vs.now v.items) }
{
    let mut out = Vec::new(alloc);
    for n in normals {
        if is_level_on(k, n, vs) {
            add(&mut out, *n)?;
        }
    }
    Ok(out)
}

/// Whether the facets' cone holds a ray, if all the normals are 0 there.
fn is_held_where_level(k: usize, ray: &IVec, normals: &[IVec], facets: &[IVec]) -> bool
    requires ray { IsShort k ray.now }
    requires normals { All (IsShort k) normals.now }
    requires facets { All (IsShort k) facets.now }
    ensures { IsTrue result ↔ (IsLevelOn ray.now normals.now → Cut k facets.now ray.now) }
{
    !is_level_on(k, ray, normals) || is_inside(k, facets, ray)
}

/// Whether the facets' cone holds each of the rays at which all the normals are 0.
fn holds_level(k: usize, rays: &[IVec], normals: &[IVec], facets: &[IVec]) -> bool
    requires rays { All (IsShort k) rays.now }
    requires normals { All (IsShort k) normals.now }
    requires facets { All (IsShort k) facets.now }
    ensures { IsTrue result ↔ ((r : Vector) → Contains rays.now r → IsLevelOn r normals.now → Cut k facets.now r) }
{
    for r in rays {
        if !is_held_where_level(k, r, normals, facets) {
            return false;
        }
    }
    true
}

/// Whether the vectors that two cones share, whose extreme ones are `common`, are a face of the first.
fn is_face_of(
    alloc: Global,
    k: usize,
    one: &ListedCone,
    other: &ListedCone,
    common: &[IVec],
) -> Result<bool, NoMemory>
    requires one { IsShortCone k (cone_of one.now) }
    requires other { IsShortCone k (cone_of other.now) }
    requires short { All (IsShort k) common.now }
    requires common { AreRays k (InBoth (InCone k one.now.rays.items) (InCone k other.now.rays.items)) common.now }
    ensures { IfOk result (λ b. IsTrue b ↔ IsFace k (InCone k one.now.rays.items) (InBoth (InCone k one.now.rays.items) (InCone k other.now.rays.items))) }
{
    let level = level_normals(alloc, k, &one.facets, common)?;
    Ok(holds_level(k, &one.rays, &level, &other.facets))
}

/// Whether both hold.
fn are_both(first: bool, second: bool) -> bool
    ensures { IsTrue result ↔ (IsTrue first × IsTrue second) }
{
    first && second
}

/// Whether the vectors that two cones share are a face of both. It is `Wide` where their facets together
/// are.
pub fn meet_in_faces(
    alloc: Global,
    k: usize,
    one: &ListedCone,
    other: &ListedCone,
) -> Result<bool, StageFault>
    requires some { 1 ≤ k }
    requires six { k ≤ 6 }
    requires one { IsShortCone k (cone_of one.now) }
    requires other { IsShortCone k (cone_of other.now) }
    requires few { length one.now.facets.items + length other.now.facets.items < 2 ^ 32 }
    ensures exact { IfOk result (λ b. IsTrue b ↔ PairMeets k (cone_of one.now) (cone_of other.now)) }
    ensures narrow { IfOk result (λ b. PairIsNarrow k (cone_of one.now) (cone_of other.now)) }
    ensures wide { IfErr result (λ f. IsWideFault k (one.now.facets.items ++ other.now.facets.items) f) }
{
    let Ok(both) = joined(alloc, &one.facets, &other.facets) else {
        return Err(StageFault::NoMemory);
    };
    match full_rays(alloc, k, &both) {
        Err(fault) => Err(fault),
        Ok(common) => {
            let Ok(first) = is_face_of(alloc, k, one, other, &common) else {
                return Err(StageFault::NoMemory);
            };
            let Ok(second) = is_face_of(alloc, k, other, one, &common) else {
                return Err(StageFault::NoMemory);
            };
            Ok(are_both(first, second))
        }
    }
}
