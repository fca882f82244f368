//! The distinct facets of cones, and which of the cones have each.
ghost use Rattle.std.specs.Prelude.{◌≡◌, ◌↔◌, ◌<◌, ◌*◌, ◌+◌, ◌/◌, [], ℕ, All, AllPairs, Contains, IfOk, List, length, get_or};
ghost use Rattle.git_defs.specs.Vectors.{Precedes};
ghost use Rattle.git_machine.specs.Signatures.{Has};
ghost use Rattle.git_orbit.specs.Index.{AreEmpty, AreFacetSets, AreFacetsBelow, AreNormals, IsConeSet, IsIndex, IsPutWhere};
ghost use Rattle.git_orbit.specs.Signatures.{facets_at};

use crate::orbit::OrbitCone;
use crate::sets::NumberSet;
use git_base::NoMemory;
use git_canon::Canon;
use git_ints::IVec;
use git_stages::{add, append, sorted_set};
use std::alloc::Global;

/// The distinct facets of some cones, in order, for each the set of the numbers of the cones that have
/// it, and the set of all numbers.
#[derive(Drop)]
pub struct Index {
    pub normals: Vec<IVec>,
    pub sets: Vec<NumberSet>,
    pub all: NumberSet,
}

/// The facets of a cone.
fn normals_of(cone: &Canon) -> &[IVec]
    ensures { result.now ≡ cone.now.facets }
{
    &cone.facets
}

/// The facets of the cone with number `i`.
fn facets_of(k: usize, list: &[OrbitCone], i: usize) -> &[IVec]
    requires { i < length list.now }
    ensures { result.now ≡ facets_at (record { k = k; list = list.now }) i }
{
    let _ = k;
    normals_of(&list[i].canon)
}

/// The facets of the cones, one cone after the other.
fn gathered(alloc: Global, k: usize, list: &[OrbitCone]) -> Result<Vec<IVec>, NoMemory>
    ensures { IfOk result (λ v. AreFacetsBelow (record { k = k; list = list.now }) (length list.now) v.items) }
{
    let mut all = Vec::new(alloc);
    for i in 0..list.len() {
        append(&mut all, facets_of(k, list, i))?;
    }
    Ok(all)
}

/// So many empty sets.
fn empty_sets(alloc: Global, count: usize, width: usize) -> Result<Vec<NumberSet>, NoMemory>
    ensures { IfOk result (λ v. AreEmpty count width v.items) }
{
    let mut sets = Vec::new(alloc);
    for i in 0..count {
        let _ = i;
        add(&mut sets, NumberSet::empty(alloc, width)?)?;
    }
    Ok(sets)
}

/// The set of the numbers below a count.
fn below(alloc: Global, count: usize) -> Result<NumberSet, NoMemory>
    ensures width { IfOk result (λ s. length s ≡ (count + 63) / 64) }
    ensures each { IfOk result (λ s. (n : ℕ) → Has s n ↔ (n < count)) }
{
    let mut all = NumberSet::empty(alloc, count.div_ceil(64))?;
    for i in 0..count {
        all.put(i);
    }
    Ok(all)
}

/// The place of a vector in a sorted list that has it.
fn place(list: &[IVec], v: &IVec) -> usize
    requires sorted { AllPairs Precedes list.now }
    requires there { Contains list.now v.now }
    ensures within { result < length list.now }
    ensures at { get_or list.now result [] ≡ v.now }
{
    match list.binary_search(v) {
        Ok(p) => p,
        Err(_) => 0,
    }
}

/// Puts a number into the sets of some of the normals.
fn mark(normals: &[IVec], facets: &[IVec], i: usize, sets: &mut Vec<NumberSet>)
    requires sorted { AllPairs Precedes normals.now }
    requires there { All (Contains normals.now) facets.now }
    requires long { length sets.old.items ≡ length normals.now }
    requires wide { (p : ℕ) → p < length normals.now → i < 64 * length (get_or sets.old.items p []) }
    ensures { IsPutWhere (λ p. Contains facets.now (get_or normals.now p [])) i sets.old.items sets.new.items }
{
    for n in facets {
        sets[place(normals, n)].put(i);
    }
}

/// The sets of the numbers of the cones that have each of the normals as a facet.
fn marked(
    alloc: Global,
    k: usize,
    list: &[OrbitCone],
    normals: &[IVec],
) -> Result<Vec<NumberSet>, NoMemory>
    requires { AreNormals (record { k = k; list = list.now }) normals.now }
    ensures { IfOk result (λ v. AreFacetSets (record { k = k; list = list.now }) normals.now v.items) }
{
    let mut sets = empty_sets(alloc, normals.len(), list.len().div_ceil(64))?;
    for i in 0..list.len() {
        mark(normals, facets_of(k, list, i), i, &mut sets);
    }
    Ok(sets)
}

/// The index of some cones.
pub fn indexed(alloc: Global, k: usize, list: &[OrbitCone]) -> Result<Index, NoMemory>
    ensures { IfOk result (λ x. IsIndex (record { k = k; list = list.now }) x.normals.items x.sets.items x.all) }
{
    let normals = sorted_set(gathered(alloc, k, list)?);
    let sets = marked(alloc, k, list, &normals)?;
    let all = below(alloc, list.len())?;
    Ok(Index { normals, sets, all })
}
