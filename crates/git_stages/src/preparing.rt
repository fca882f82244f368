//! The prepared list of inequalities, and sorted lists.
ghost use Rattle.std.specs.Prelude.{◌≡◌, ◌≤◌, ◌<◌, All, IfOk, length};
ghost use Rattle.git_defs.specs.Vectors.{zero_vector};
ghost use Rattle.git_stages.specs.Short.{IsShort};
ghost use Rattle.git_stages.specs.Prepared.{IsPrepared, ArePrimitiveParts, IsSortedSet};

use crate::lists::add;
use crate::vectors::is_same;
use git_base::NoMemory;
use git_ints::IVec;
use std::alloc::Global;

/// The vectors of a list, each once, in order.
pub fn sorted_set(list: Vec<IVec>) -> Vec<IVec>
    ensures sorted { IsSortedSet list.items result.items }
    ensures size { length result.items ≤ length list.items }
{
    let mut all = list;
    all.sort_unstable();
    all.dedup();
    all
}

/// The vector 0 of `k` entries.
fn zero(k: usize) -> IVec
    requires some { 1 ≤ k }
    requires few { k ≤ 6 }
    ensures { result ≡ zero_vector k }
{
    IVec::of(&[0i128; 6][..k])
}

/// The primitive vectors along those that are not 0.
fn gathered(alloc: Global, k: usize, given: &[IVec]) -> Result<Vec<IVec>, NoMemory>
    requires some { 1 ≤ k }
    requires few { k ≤ 6 }
    requires short { All (IsShort k) given.now }
    ensures parts { IfOk result (λ v. ArePrimitiveParts given.now v.items) }
    ensures size { IfOk result (λ v. length v.items ≤ length given.now) }
{
    let mut out = Vec::new(alloc);
    let none = zero(k);
    for a in given {
        let part = a.primitive();
        if !is_same(&part, &none) {
            add(&mut out, part)?;
        }
    }
    Ok(out)
}

/// The primitive vectors along those that are not 0, each once, in order.
pub fn prepared(alloc: Global, k: usize, given: &[IVec]) -> Result<Vec<IVec>, NoMemory>
    requires some { 1 ≤ k }
    requires few { k ≤ 6 }
    requires short { All (IsShort k) given.now }
    ensures prepared { IfOk result (λ v. IsPrepared given.now v.items) }
    ensures size { IfOk result (λ v. length v.items ≤ length given.now) }
{
    let out = gathered(alloc, k, given)?;
    Ok(sorted_set(out))
}
