//! The extreme vectors of a cone that inequalities cut out.
ghost use Rattle.std.specs.Prelude.{◌≡◌, ◌≤◌, ◌<◌, ◌^◌, ◌*◌, ◌+◌, ◌++◌, [], ◌∷◌, ℕ, List, All, IfOk, IfErr, length, map, get_or, take, drop};
ghost use Rattle.git_defs.specs.Cones.{AreRays, Cut};
ghost use Rattle.git_defs.specs.Vectors.{Vector, HasRank};
ghost use Rattle.git_stages.specs.Prepared.{IsPrepared};
ghost use Rattle.git_stages.specs.Ranks.{IsRank};
ghost use Rattle.git_stages.specs.Short.{IsShort};
ghost use Rattle.git_stages.specs.Wide.{NeverWide};
ghost use Rattle.git_dd.specs.Answers.{AreRaysOf, IsFaultOf};
ghost use Rattle.git_dd.specs.Converted.{IsConverted};
ghost use Rattle.git_dd.specs.declared.answers.DdFault.{DdFault};
ghost use Rattle.git_adjacency.specs.Marks.{IsRay, vectors};
ghost use Rattle.git_elimination.specs.Progress.{Progress};
ghost use Rattle.git_elimination.specs.Stops.{IsEarlyStop};
ghost use Rattle.git_dd.specs.Stops.{IsWideFault};
ghost use Rattle.git_dd.specs.Tights.{AreTight, AreAllTight};

use crate::answers::{DdFault, Rays};
use crate::extending::{extended, vectors_of};
use git_adjacency::first_rays;
use git_base::NoMemory;
use git_elimination::{Split, StageFault, split_all};
use git_ints::IVec;
use git_rank::rank;
use git_stages::{add, is_level, joined, prepared, sorted_set};
use std::alloc::Global;

/// The numbers of the inequalities at which a vector is 0.
fn tight_of(alloc: Global, k: usize, prepared: &[IVec], x: &IVec) -> Result<Vec<u32>, NoMemory>
    requires prepared { All (IsShort k) prepared.now }
    requires x { IsShort k x.now }
    requires few { length prepared.now < 2 ^ 32 }
    ensures { IfOk result (λ v. AreTight prepared.now x.now v.items) }
{
    let mut out = Vec::new(alloc);
    for i in 0..prepared.len() {
        if is_level(k, &prepared[i], x) {
            add(&mut out, i as u32)?;
        }
    }
    Ok(out)
}

/// For each vector the numbers of the inequalities at which it is 0.
pub fn all_tight(
    alloc: Global,
    k: usize,
    prepared: &[IVec],
    list: &[IVec],
) -> Result<Vec<Vec<u32>>, NoMemory>
    requires prepared { All (IsShort k) prepared.now }
    requires list { All (IsShort k) list.now }
    requires few { length prepared.now < 2 ^ 32 }
    ensures { IfOk result (λ v. AreAllTight prepared.now list.now (map (λ t. t.items) v.items)) }
{
    let mut out = Vec::new(alloc);
    for x in list {
        let places = tight_of(alloc, k, prepared, x)?;
        add(&mut out, places)?;
    }
    Ok(out)
}

/// The same fault.
fn converted(fault: StageFault) -> DdFault
    ensures { IsConverted fault result }
{
    match fault {
        StageFault::Wide(at) => DdFault::Wide(at),
        StageFault::NoMemory => DdFault::NoMemory,
    }
}

/// The fault of the elimination: where too few inequalities are independent, that comes first.
fn early(alloc: Global, k: usize, given: &[IVec], prepared: &[IVec], fault: StageFault) -> DdFault
    requires given { All (IsShort k) given.now }
    requires six { k ≤ 6 }
    requires is { IsPrepared given.now prepared.now }
    requires stop { IsEarlyStop k prepared.now fault }
    ensures { IsFaultOf k given.now result }
{
    let _ = prepared;
    match fault {
        StageFault::NoMemory => DdFault::NoMemory,
        StageFault::Wide(at) => {
            let Ok(n) = rank(alloc, k, given) else {
                return DdFault::NoMemory;
            };
            if n < k {
                return DdFault::NotPointed { rank: n as u32 };
            }
            DdFault::Wide(at)
        }
    }
}

/// The extreme vectors in order, from a split of full rank.
fn from_split(
    alloc: Global,
    k: usize,
    given: &[IVec],
    prepared: &[IVec],
    split: Split,
) -> Result<Vec<IVec>, StageFault>
    requires given { All (IsShort k) given.now }
    requires is { IsPrepared given.now prepared.now }
    requires few { length prepared.now < 2 ^ 32 }
    requires progress { Progress k prepared.now (length prepared.now) split.base.items split.free.items split.rays.items split.rest.items }
    requires full { length split.base.items ≡ k }
    ensures rays { IfOk result (λ v. AreRays k (Cut k given.now) v.items) }
    ensures short { IfOk result (λ v. All (IsShort k) v.items) }
    ensures narrow { IfOk result (λ v. HasRank k given.now × NeverWide k given.now) }
    ensures fault { IfErr result (λ f. IsWideFault k given.now f) }
{
    let _ = given;
    let _ = prepared;
    let Ok(ordered) = joined(alloc, &split.base, &split.rest) else {
        return Err(StageFault::NoMemory);
    };
    let width = ordered.len() / 64 + 1;
    let Ok(first) = first_rays(alloc, k, &split.base, width, &split.rays) else {
        return Err(StageFault::NoMemory);
    };
    match extended(alloc, k, &ordered, width, first) {
        Err(fault) => Err(fault),
        Ok(more) => {
            let Ok(vectors) = vectors_of(alloc, &more) else {
                return Err(StageFault::NoMemory);
            };
            Ok(sorted_set(vectors))
        }
    }
}

/// The extreme vectors in order, where k inequalities are known to be independent and all are prepared.
pub fn full_rays_of(
    alloc: Global,
    k: usize,
    inequalities: &[IVec],
    prepared: &[IVec],
) -> Result<Vec<IVec>, StageFault>
    requires some { 1 ≤ k }
    requires six { k ≤ 6 }
    requires short { All (IsShort k) inequalities.now }
    requires few { length prepared.now < 2 ^ 32 }
    requires rank { HasRank k inequalities.now }
    requires is { IsPrepared inequalities.now prepared.now }
    ensures rays { IfOk result (λ v. AreRays k (Cut k inequalities.now) v.items) }
    ensures short { IfOk result (λ v. All (IsShort k) v.items) }
    ensures narrow { IfOk result (λ v. HasRank k inequalities.now × NeverWide k inequalities.now) }
    ensures fault { IfErr result (λ f. IsWideFault k inequalities.now f) }
{
    match split_all(alloc, k, prepared) {
        Err(fault) => Err(fault),
        Ok(split) => {
            if split.base.len() < k {
                unreachable!()
            }
            from_split(alloc, k, inequalities, prepared, split)
        }
    }
}

/// The extreme vectors in order, where k inequalities are known to be independent.
pub fn full_rays(alloc: Global, k: usize, inequalities: &[IVec]) -> Result<Vec<IVec>, StageFault>
    requires some { 1 ≤ k }
    requires six { k ≤ 6 }
    requires short { All (IsShort k) inequalities.now }
    requires few { length inequalities.now < 2 ^ 32 }
    requires rank { HasRank k inequalities.now }
    ensures rays { IfOk result (λ v. AreRays k (Cut k inequalities.now) v.items) }
    ensures short { IfOk result (λ v. All (IsShort k) v.items) }
    ensures narrow { IfOk result (λ v. HasRank k inequalities.now × NeverWide k inequalities.now) }
    ensures fault { IfErr result (λ f. IsWideFault k inequalities.now f) }
{
    let Ok(list) = prepared(alloc, k, inequalities) else {
        return Err(StageFault::NoMemory);
    };
    full_rays_of(alloc, k, inequalities, &list)
}

/// The extreme vectors with the prepared inequalities at which each is 0.
fn with_tight(
    alloc: Global,
    k: usize,
    given: &[IVec],
    prepared: &[IVec],
    list: Vec<IVec>,
) -> Result<Rays, DdFault>
    requires prepared { All (IsShort k) prepared.now }
    requires is { IsPrepared given.now prepared.now }
    requires few { length prepared.now < 2 ^ 32 }
    requires rays { AreRays k (Cut k given.now) list.items }
    requires short { All (IsShort k) list.items }
    ensures rays { IfOk result (λ v. AreRaysOf k given.now v.list.items (map (λ t. t.items) v.tight.items)) }
    ensures short { IfOk result (λ v. All (IsShort k) v.list.items) }
    ensures fault { IfErr result (λ f. f ≡ DdFault.NoMemory) }
{
    let _ = given;
    match all_tight(alloc, k, prepared, &list) {
        Ok(tight) => Ok(Rays { list, tight }),
        Err(_) => Err(DdFault::NoMemory),
    }
}

/// The extreme vectors, in order, with the inequalities at which each is 0.
pub fn rays(alloc: Global, k: usize, inequalities: &[IVec]) -> Result<Rays, DdFault>
    requires some { 1 ≤ k }
    requires six { k ≤ 6 }
    requires short { All (IsShort k) inequalities.now }
    requires few { length inequalities.now < 2 ^ 32 }
    ensures rays { IfOk result (λ v. AreRaysOf k inequalities.now v.list.items (map (λ t. t.items) v.tight.items)) }
    ensures short { IfOk result (λ v. All (IsShort k) v.list.items) }
    ensures narrow { IfOk result (λ v. HasRank k inequalities.now × NeverWide k inequalities.now) }
    ensures fault { IfErr result (λ f. IsFaultOf k inequalities.now f) }
{
    let Ok(list) = prepared(alloc, k, inequalities) else {
        return Err(DdFault::NoMemory);
    };
    match split_all(alloc, k, &list) {
        Err(fault) => Err(early(alloc, k, inequalities, &list, fault)),
        Ok(split) => {
            if split.base.len() < k {
                return Err(DdFault::NotPointed {
                    rank: split.base.len() as u32,
                });
            }
            match from_split(alloc, k, inequalities, &list, split) {
                Ok(found) => with_tight(alloc, k, inequalities, &list, found),
                Err(fault) => Err(converted(fault)),
            }
        }
    }
}
