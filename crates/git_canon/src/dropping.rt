//! Those of some vectors that no other dominates: the rays of a cone among its generators, by its
//! facets, and the facets among its inequalities, by its rays.
ghost use Rattle.std.specs.Prelude.{◌≡◌, ◌↔◌, ◌≤◌, ◌*◌, All, IfOk, IsTrue, length, AllPairs};
ghost use Rattle.git_defs.specs.Vectors.{Precedes};
ghost use Rattle.git_geometry.specs.Zeros.{Dominates, AreUndominated};
ghost use Rattle.git_stages.specs.Short.{IsShort};
ghost use Rattle.git_adjacency.specs.Marks.{IsRay, IsMarked, vectors};
ghost use Rattle.git_canon.specs.Canons.{IsAlone};

use git_base::NoMemory;
use git_dd::{Ray, first_rays, has_common};
use git_ints::IVec;
use git_stages::{add, is_same, sorted_set};
use std::alloc::Global;

/// Whether the second vector is 0 wherever the first is.
fn is_dominated(inequalities: &[IVec], width: usize, r: &Ray, s: &Ray) -> bool
    requires r { IsMarked inequalities.now width r.now.vector r.now.zeros.items }
    requires s { IsMarked inequalities.now width s.now.vector s.now.zeros.items }
    ensures { IsTrue result ↔ Dominates inequalities.now s.now.vector r.now.vector }
{
    has_common(&r.zeros, &r.zeros, &s.zeros)
}

/// Whether the second vector doesn't dominate the first, or is the same.
fn stands_apart(inequalities: &[IVec], width: usize, r: &Ray, s: &Ray) -> bool
    requires r { IsMarked inequalities.now width r.now.vector r.now.zeros.items }
    requires s { IsMarked inequalities.now width s.now.vector s.now.zeros.items }
    ensures { IsTrue result ↔ (Dominates inequalities.now s.now.vector r.now.vector → s.now.vector ≡ r.now.vector) }
{
    !is_dominated(inequalities, width, r, s) || is_same(&s.vector, &r.vector)
}

/// Whether no other vector dominates this one.
fn is_alone(k: usize, inequalities: &[IVec], width: usize, given: &[Ray], r: &Ray) -> bool
    requires given { All (IsRay k inequalities.now width) given.now }
    requires r { IsRay k inequalities.now width r.now }
    ensures { IsTrue result ↔ IsAlone inequalities.now (vectors given.now) r.now.vector }
{
    let _ = k;
    for s in given {
        if !stands_apart(inequalities, width, r, s) {
            return false;
        }
    }
    true
}

/// Those that no other dominates.
fn lone(
    alloc: Global,
    k: usize,
    inequalities: &[IVec],
    width: usize,
    given: &[Ray],
) -> Result<Vec<IVec>, NoMemory>
    requires given { All (IsRay k inequalities.now width) given.now }
    ensures { IfOk result (λ v. AreUndominated inequalities.now (vectors given.now) v.items) }
{
    let mut out = Vec::new(alloc);
    for r in given {
        if is_alone(k, inequalities, width, given, r) {
            add(&mut out, r.vector)?;
        }
    }
    Ok(out)
}

/// Those that no other dominates, in order.
pub fn undominated(
    alloc: Global,
    k: usize,
    inequalities: &[IVec],
    given: &[IVec],
) -> Result<Vec<IVec>, NoMemory>
    requires inequalities { All (IsShort k) inequalities.now }
    requires given { All (IsShort k) given.now }
    ensures undominated { IfOk result (λ v. AreUndominated inequalities.now given.now v.items) }
    ensures ordered { IfOk result (λ v. AllPairs Precedes v.items) }
{
    let width = inequalities.len() / 64 + 1;
    let marked = first_rays(alloc, k, inequalities, width, given)?;
    let out = lone(alloc, k, inequalities, width, &marked)?;
    Ok(sorted_set(out))
}
