//! All stages after the elimination.
ghost use Rattle.std.specs.Prelude.{◌≡◌, ◌<◌, ◌≤◌, ◌*◌, ◌+◌, ◌^◌, ℕ, List, All, IfOk, IfErr, length, take, drop, map};
ghost use Rattle.git_defs.specs.Vectors.{Vector};
ghost use Rattle.git_defs.specs.Cones.{Cut, IsPointed};
ghost use Rattle.git_geometry.specs.Stages.{Exact};
ghost use Rattle.git_stages.specs.Narrow.{IsNarrowTo};
ghost use Rattle.git_stages.specs.Prepared.{IsSortedSet};
ghost use Rattle.git_stages.specs.Short.{IsShort};
ghost use Rattle.git_stages.specs.Wide.{IsLeastOf};
ghost use Rattle.git_adjacency.specs.Marks.{IsRay, vectors};
ghost use Rattle.git_dd.specs.Stops.{IsLateStop};

use git_adjacency::{Ray, next};
use git_base::NoMemory;
use git_elimination::StageFault;
use git_ints::IVec;
use git_limits::MANY;
use git_stages::{WideAt, WideWhat, add, is_small, lesser, sorted_set};
use std::alloc::Global;

/// The vectors alone.
pub fn vectors_of(alloc: Global, rays: &[Ray]) -> Result<Vec<IVec>, NoMemory>
    ensures { IfOk result (λ v. v.items ≡ vectors rays.now) }
{
    let mut out = Vec::new(alloc);
    for r in rays {
        add(&mut out, r.vector)?;
    }
    Ok(out)
}

/// The least vector with a large entry.
fn least_large_ray(rays: &[Ray]) -> Option<IVec>
    ensures { IsLeastOf (vectors rays.now) result }
{
    let mut least = None;
    for r in rays {
        if !is_small(&r.vector) {
            least = lesser(least, &r.vector);
        }
    }
    least
}

/// The vectors, each once, in order.
fn distinct(alloc: Global, rays: &[Ray]) -> Result<Vec<IVec>, NoMemory>
    ensures { IfOk result (λ v. IsSortedSet (vectors rays.now) v.items) }
{
    let out = vectors_of(alloc, rays)?;
    Ok(sorted_set(out))
}

/// One stage, judged.
fn judged(
    alloc: Global,
    k: usize,
    ordered: &[IVec],
    n: usize,
    width: usize,
    rays: Vec<Ray>,
) -> Result<Vec<Ray>, StageFault>
    requires ordered { All (IsShort k) ordered.now }
    requires start { k ≤ n }
    requires at { n < length ordered.now }
    requires few { length ordered.now < 2 ^ 32 }
    requires room { length ordered.now ≤ 64 * width }
    requires pointed { IsPointed k (Cut k (take k ordered.now)) }
    requires rays { All (IsRay k (take n ordered.now) width) rays.items }
    requires exact { Exact k (take n ordered.now) (vectors rays.items) }
    requires narrow { IsNarrowTo k (take k ordered.now) (drop k ordered.now) n }
    ensures rays { IfOk result (λ v. All (IsRay k (take (n + 1) ordered.now) width) v.items) }
    ensures exact { IfOk result (λ v. Exact k (take (n + 1) ordered.now) (vectors v.items)) }
    ensures narrow { IfOk result (λ v. IsNarrowTo k (take k ordered.now) (drop k ordered.now) (n + 1)) }
    ensures wide { IfErr result (λ f. IsLateStop k ordered.now f) }
{
    let Ok(more) = next(alloc, k, ordered, n, width, rays) else {
        return Err(StageFault::NoMemory);
    };
    match least_large_ray(&more) {
        Some(v) => {
            return Err(StageFault::Wide(WideAt {
                stage: n as u32 + 1,
                what: WideWhat::Entry(v),
            }));
        }
        None => {}
    }
    if more.len() <= MANY {
        return Ok(more);
    }
    let Ok(list) = distinct(alloc, &more) else {
        return Err(StageFault::NoMemory);
    };
    if list.len() <= MANY {
        return Ok(more);
    }
    Err(StageFault::Wide(WideAt {
        stage: n as u32 + 1,
        what: WideWhat::Many,
    }))
}

/// All stages after the first.
pub fn extended(
    alloc: Global,
    k: usize,
    ordered: &[IVec],
    width: usize,
    first: Vec<Ray>,
) -> Result<Vec<Ray>, StageFault>
    requires ordered { All (IsShort k) ordered.now }
    requires start { k ≤ length ordered.now }
    requires few { length ordered.now < 2 ^ 32 }
    requires room { length ordered.now ≤ 64 * width }
    requires pointed { IsPointed k (Cut k (take k ordered.now)) }
    requires rays { All (IsRay k (take k ordered.now) width) first.items }
    requires exact { Exact k (take k ordered.now) (vectors first.items) }
    requires narrow { IsNarrowTo k (take k ordered.now) (drop k ordered.now) k }
    ensures rays { IfOk result (λ v. All (IsRay k ordered.now width) v.items) }
    ensures exact { IfOk result (λ v. Exact k ordered.now (vectors v.items)) }
    ensures narrow { IfOk result (λ v. IsNarrowTo k (take k ordered.now) (drop k ordered.now) (length ordered.now)) }
    ensures wide { IfErr result (λ f. IsLateStop k ordered.now f) }
{
    let mut rays = first;
    for n in k..ordered.len() {
        rays = judged(alloc, k, ordered, n, width, rays)?;
    }
    Ok(rays)
}
