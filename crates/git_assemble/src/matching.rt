//! Whether two chambers share a whole wall.
ghost use Rattle.std.specs.Prelude.{◌≡◌, ◌↔◌, All, Contains, IfOk, IsTrue};
ghost use Rattle.git_defs.specs.Vectors.{AllOfLength};
ghost use Rattle.git_stages.specs.Short.{IsShort};
ghost use Rattle.git_cone_faces.specs.Faces.{on_wall};
ghost use Rattle.git_chamber.specs.Listings.{SharesWall};

use git_base::NoMemory;
use git_chamber::Chamber;
use git_ints::IVec;
use git_stages::{add, is_level, is_same, negated};
use std::alloc::Global;

/// Whether the list has the vector.
fn has(list: &[IVec], v: &IVec) -> bool
    ensures { IsTrue result ↔ Contains list.now v.now }
{
    for u in list {
        if is_same(u, v) {
            return true;
        }
    }
    false
}

/// Those of the vectors at which the normal is 0, in their order.
fn wall(alloc: Global, k: usize, normal: &IVec, vs: &[IVec]) -> Result<Vec<IVec>, NoMemory>
    requires normal { IsShort k normal.now }
    requires short { All (IsShort k) vs.now }
    ensures { IfOk result (λ w. w.items ≡ on_wall normal.now vs.now) }
{
    let mut wall = Vec::new(alloc);
    for v in vs {
        if is_level(k, normal, v) {
            add(&mut wall, *v)?;
        }
    }
    Ok(wall)
}

/// Whether two lists have the same vectors in the same order.
fn are_same(us: &[IVec], vs: &[IVec]) -> bool
    ensures { IsTrue result ↔ (us.now ≡ vs.now) }
{
    if us.len() != vs.len() {
        return false;
    }
    for i in 0..us.len() {
        if !is_same(&us[i], &vs[i]) {
            return false;
        }
    }
    true
}

/// Whether the other chamber shares the whole wall of a chamber with these rays: it has the facet turned
/// round, and the same rays on it.
pub(crate) fn is_shared(
    alloc: Global,
    k: usize,
    normal: &IVec,
    rays: &[IVec],
    other: &Chamber,
) -> Result<bool, NoMemory>
    requires normal { IsShort k normal.now }
    requires rays { All (IsShort k) rays.now }
    requires other { AllOfLength k other.now.rays }
    ensures { IfOk result (λ b. IsTrue b ↔ SharesWall normal.now rays.now other.now.rays other.now.facets) }
{
    if !has(&other.facets, &negated(k, normal)) {
        return Ok(false);
    }
    let one = wall(alloc, k, normal, rays)?;
    let two = wall(alloc, k, normal, &other.rays)?;
    Ok(are_same(&one, &two))
}
