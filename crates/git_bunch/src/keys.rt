//! Whether the columns of a face have a given cone: they lie in it, and along each ray of it lies one of them.
ghost use Rattle.std.specs.Prelude.{◌≡◌, ◌↔◌, ◌≤◌, ◌<◌, ◌^◌, ℕ, All, Contains, IfOk, IsTrue, length};
ghost use Rattle.std.specs.Int.RustNames.{bit_and};
ghost use Rattle.git_defs.specs.Cones.{Cut, InCone};
ghost use Rattle.git_ints.specs.Content.{IsPrimitivePart};
ghost use Rattle.git_stages.specs.Short.{IsShort};
ghost use Rattle.git_canon.specs.Canons.{IsCanon};
ghost use Rattle.git_orbit.specs.Keys.{AreZipped, HasKey, Selects};
ghost use Rattle.git_bunch.specs.Keys.{IsAlong, IsKey};

use git_base::NoMemory;
use git_canon::Canon;
use git_ints::IVec;
use git_stages::{add, is_same};
use std::alloc::Global;

/// The columns that a cone holds, and for each of its rays the columns along it, as masks.
#[derive(Drop)]
pub(crate) struct Key {
    pub held: u16,
    pub along: Vec<u16>,
}

/// Whether the cone holds a short vector.
fn is_held(k: usize, cone: &Canon, q: &IVec) -> bool
    requires entries { cone.now.k ≡ k }
    requires q { IsShort k q.now }
    ensures { IsTrue result ↔ Cut k cone.now.facets q.now }
{
    let _ = k;
    cone.holds(q)
}

/// Whether the ray is the primitive part of a vector.
fn is_along(k: usize, q: &IVec, ray: &IVec) -> bool
    requires { IsShort k q.now }
    ensures { IsTrue result ↔ IsPrimitivePart q.now ray.now }
{
    let _ = k;
    is_same(&q.primitive(), ray)
}

/// The columns in the cone.
pub(crate) fn columns_in(k: usize, cone: &Canon, columns: &[IVec]) -> u16
    requires entries { cone.now.k ≡ k }
    requires columns { All (IsShort k) columns.now }
    requires few { length columns.now ≤ 16 }
    ensures { Selects (Cut k cone.now.facets) columns.now result }
{
    let mut mask = 0u16;
    for j in 0..columns.len() {
        let i = columns.len() - 1 - j;
        let bit = is_held(k, cone, &columns[i]);
        mask = 2 * mask + u16::from(bit);
    }
    mask
}

/// The columns along a ray.
pub(crate) fn columns_along(k: usize, columns: &[IVec], ray: &IVec) -> u16
    requires columns { All (IsShort k) columns.now }
    requires few { length columns.now ≤ 16 }
    ensures { Selects (IsAlong ray.now) columns.now result }
{
    let mut mask = 0u16;
    for j in 0..columns.len() {
        let i = columns.len() - 1 - j;
        let bit = is_along(k, &columns[i], ray);
        mask = 2 * mask + u16::from(bit);
    }
    mask
}

/// For each ray the columns along it.
fn all_along(alloc: Global, k: usize, columns: &[IVec], rays: &[IVec]) -> Result<Vec<u16>, NoMemory>
    requires columns { All (IsShort k) columns.now }
    requires few { length columns.now ≤ 16 }
    ensures { IfOk result (λ v. AreZipped (λ r. Selects (IsAlong r) columns.now) rays.now v.items) }
{
    let mut out = Vec::new(alloc);
    for ray in rays {
        add(&mut out, columns_along(k, columns, ray))?;
    }
    Ok(out)
}

/// The key of a cone.
pub(crate) fn key_of(
    alloc: Global,
    k: usize,
    cone: &Canon,
    columns: &[IVec],
) -> Result<Key, NoMemory>
    requires entries { cone.now.k ≡ k }
    requires columns { All (IsShort k) columns.now }
    requires few { length columns.now ≤ 16 }
    ensures canon { IsCanon k (InCone k cone.now.rays) cone.now.rays cone.now.facets }
    ensures key { IfOk result (λ key. IsKey k columns.now cone.now.rays cone.now.facets key.held key.along.items) }
{
    let along = all_along(alloc, k, columns, &cone.rays)?;
    let held = columns_in(k, cone, columns);
    Ok(Key { held, along })
}

/// Whether the mask meets each of the others.
fn meets_all(along: &[u16], mask: u16) -> bool
    ensures { IsTrue result ↔ ((a : ℕ) → Contains along.now a → bit_and mask a ≡ 0 → ⊥) }
{
    for a in along {
        if mask & *a == 0 {
            return false;
        }
    }
    true
}

/// Whether the columns of a face have the cone with this key.
pub(crate) fn has_key(key: &Key, mask: u16) -> bool
    ensures { IsTrue result ↔ HasKey key.now.held key.now.along.items mask }
{
    mask & key.held == mask && meets_all(&key.along, mask)
}
