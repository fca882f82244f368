//! The columns of faces, and sets of columns as masks.
ghost use Rattle.std.specs.Prelude.{◌≡◌, ◌↔◌, ◌≤◌, ◌<◌, ◌^◌, ◌*◌, ◌+◌, ◌++◌, [], ◌∷◌, List, All, IfOk, IsTrue, length, if◌then◌else◌};
ghost use Rattle.git_defs.specs.Vectors.{Vector};
ghost use Rattle.git_defs.specs.Cones.{Cut};
ghost use Rattle.git_defs.specs.Faces.{face};
ghost use Rattle.git_ints.specs.Content.{IsPrimitivePart};
ghost use Rattle.git_stages.specs.Short.{IsShort};
ghost use Rattle.git_orbit.specs.Keys.{AreZipped, Selects};

use git_base::NoMemory;
use git_canon::Canon;
use git_ints::IVec;
use git_stages::{add, is_same};
use std::alloc::Global;

/// The columns of a face.
pub fn face_of(alloc: Global, columns: &[IVec], mask: u16) -> Result<Vec<IVec>, NoMemory>
    ensures { IfOk result (λ v. v.items ≡ face columns.now mask) }
{
    let mut out = Vec::new(alloc);
    let mut rest = mask;
    for q in columns {
        if rest % 2 == 1 {
            add(&mut out, *q)?;
        }
        rest /= 2;
    }
    Ok(out)
}

/// The primitive part of a short vector.
fn part(k: usize, q: &IVec) -> IVec
    requires { IsShort k q.now }
    ensures { IsPrimitivePart q.now result }
{
    let _ = k;
    q.primitive()
}

/// The primitive part of each column.
pub fn parts(alloc: Global, k: usize, columns: &[IVec]) -> Result<Vec<IVec>, NoMemory>
    requires { All (IsShort k) columns.now }
    ensures { IfOk result (λ v. AreZipped IsPrimitivePart columns.now v.items) }
{
    let mut out = Vec::new(alloc);
    for q in columns {
        add(&mut out, part(k, q))?;
    }
    Ok(out)
}

/// A bit more, the lowest.
fn with_bit(mask: u16, bit: bool) -> u16
    requires { mask < 2 ^ 15 }
    ensures { result ≡ 2 * mask + (if bit then 1 else 0) }
{
    if bit { 2 * mask + 1 } else { 2 * mask }
}

/// Whether the cone holds a short vector.
fn is_held(k: usize, cone: &Canon, q: &IVec) -> bool
    requires entries { cone.now.k ≡ k }
    requires q { IsShort k q.now }
    ensures { IsTrue result ↔ Cut k cone.now.facets q.now }
{
    let _ = k;
    cone.holds(q)
}

/// The columns in the cone.
pub fn held(k: usize, cone: &Canon, columns: &[IVec]) -> u16
    requires entries { cone.now.k ≡ k }
    requires columns { All (IsShort k) columns.now }
    requires few { length columns.now ≤ 16 }
    ensures { Selects (Cut k cone.now.facets) columns.now result }
{
    let mut mask = 0u16;
    for j in 0..columns.len() {
        let i = columns.len() - 1 - j;
        let bit = is_held(k, cone, &columns[i]);
        mask = with_bit(mask, bit);
    }
    mask
}

/// The places at which a vector stands.
pub fn along(list: &[IVec], r: &IVec) -> u16
    requires { length list.now ≤ 16 }
    ensures { Selects (λ (w : Vector). w ≡ r.now) list.now result }
{
    let mut mask = 0u16;
    for j in 0..list.len() {
        let i = list.len() - 1 - j;
        let bit = is_same(&list[i], r);
        mask = with_bit(mask, bit);
    }
    mask
}

/// For each ray the places at which it stands.
pub fn alongs(alloc: Global, list: &[IVec], rays: &[IVec]) -> Result<Vec<u16>, NoMemory>
    requires { length list.now ≤ 16 }
    ensures { IfOk result (λ v. AreZipped (λ r. Selects (λ (w : Vector). w ≡ r) list.now) rays.now v.items) }
{
    let mut out = Vec::new(alloc);
    for r in rays {
        add(&mut out, along(list, r))?;
    }
    Ok(out)
}
