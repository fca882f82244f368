//! The orbit cones of masks.
ghost use Rattle.std.specs.Prelude.{◌≡◌, ◌↔◌, ◌≤◌, ◌<◌, ◌^◌, ◌++◌, [], ◌∷◌, ℕ, List, All, AllPairs, Contains, IfOk, IfErr, ◌+◌, IsPermutation, Bool, true, false, length, map, get_or};
ghost use Rattle.std.specs.Ordering.{is_lt, nat_cmp};
ghost use Rattle.git_defs.specs.Faces.{IsFullDimensional};
ghost use Rattle.git_grading.specs.Gradings.{IsGrading};
ghost use Rattle.git_ints.specs.Content.{IsPrimitivePart};
ghost use Rattle.git_stages.specs.Short.{IsShort};
ghost use Rattle.git_orbit.specs.Keys.{AreZipped};
ghost use Rattle.git_orbit.specs.Orbits.{IsOne, AreFaces, Sieved, AreOrbitCones, IsConesFault, IsNewFault, IsOneFault, Fan};
ghost use Rattle.git_orbit.specs.Index.{IsIndexed};
ghost use Rattle.git_orbit.specs.declared.orbit.OrbitCone.{OrbitCone};

use crate::faces::{alongs, face_of, held, parts};
use crate::index::{Index, indexed};
use crate::keys::sweep;
use git_base::NoMemory;
use git_canon::{Canon, CanonFault};
use git_grading::Grading;
use git_ints::IVec;
use git_stages::{WideAt, add};
use std::alloc::Global;
use std::cmp::Ordering;
use std::marker::Model;

/// A cone with the greatest and the least of its masks.
#[derive(Drop)]
pub struct OrbitCone {
    pub greatest: u16,
    pub least: u16,
    pub canon: Canon,
}

/// The distinct cones of faces, by descending greatest mask.
#[derive(Drop)]
pub struct Cones {
    pub k: usize,
    pub list: Vec<OrbitCone>,
    pub(crate) index: Index,
}

impl Model for Cones {
    ghost Value = { Fan };

    ghost view = { λ c. record { k = c.k; list = c.list.items } };

    ghost invariant = { λ c. IsIndexed c.k c.list.items c.index.normals.items c.index.sets.items c.index.all };
}

/// Why cones are not described.
#[derive(Clone, Copy, Debug, PartialEq, Eq)]
pub enum ConesFault {
    /// Some mask, the smallest with its cone among those given, has wide columns: the least such mask.
    Wide { mask: u16, at: WideAt },
    /// Memory ran out.
    NoMemory,
}

/// The fault of a cone with the face's mask.
fn converted(mask: u16, fault: CanonFault) -> ConesFault
    ensures { IsOneFault mask fault result }
{
    match fault {
        CanonFault::Wide(at) => ConesFault::Wide { mask, at },
        CanonFault::NoMemory => ConesFault::NoMemory,
    }
}

/// The cone of the face at a place. Marks the faces before it that have its cone.
fn one(
    alloc: Global,
    k: usize,
    columns: &[IVec],
    parts: &[IVec],
    masks: &[u16],
    seen: &mut Vec<bool>,
    i: usize,
) -> Result<OrbitCone, ConesFault>
    requires grading { IsGrading k columns.now }
    requires short { All (IsShort k) columns.now }
    requires parts { AreZipped IsPrimitivePart columns.now parts.now }
    requires faces { AreFaces k columns.now masks.now }
    requires within { i < length masks.now }
    requires long { length seen.old.items ≡ length masks.now }
    ensures one { IfOk result (λ c. IsOne k columns.now masks.now i seen.old.items seen.new.items c) }
    ensures fault { IfErr result (λ f. IsConesFault k columns.now (get_or masks.now i 0) f) }
{
    let mask = masks[i];
    let Ok(face) = face_of(alloc, columns, mask) else {
        return Err(ConesFault::NoMemory);
    };
    match Canon::of_generators(alloc, k, &face) {
        Err(fault) => Err(converted(mask, fault)),
        Ok(canon) => {
            let within = held(k, &canon, columns);
            let Ok(rays) = alongs(alloc, parts, &canon.rays) else {
                return Err(ConesFault::NoMemory);
            };
            let best = sweep(masks, seen, i, within, &rays);
            Ok(OrbitCone {
                greatest: masks[best],
                least: mask,
                canon,
            })
        }
    }
}

/// No marks.
fn blank(alloc: Global, count: usize) -> Result<Vec<bool>, NoMemory>
    ensures long { IfOk result (λ v. length v.items ≡ count) }
    ensures none { IfOk result (λ v. (p : ℕ) → p < count → get_or v.items p true ≡ false) }
{
    let mut out = Vec::new(alloc);
    for i in 0..count {
        let _ = i;
        if out.push(false).is_err() {
            return Err(NoMemory);
        }
    }
    Ok(out)
}

/// Whether a place is marked.
fn is_seen(seen: &Vec<bool>, i: usize) -> bool
    requires { i < length seen.now.items }
    ensures { result ≡ get_or seen.now.items i true }
{
    seen[i]
}

/// The cone of the face at a place, if no earlier face has it.
fn add_one(
    alloc: Global,
    list: &mut Vec<OrbitCone>,
    k: usize,
    columns: &[IVec],
    parts: &[IVec],
    masks: &[u16],
    seen: &mut Vec<bool>,
    i: usize,
) -> Result<(), ConesFault>
    requires grading { IsGrading k columns.now }
    requires short { All (IsShort k) columns.now }
    requires parts { AreZipped IsPrimitivePart columns.now parts.now }
    requires faces { AreFaces k columns.now masks.now }
    requires within { i < length masks.now }
    requires sieved { Sieved k columns.now masks.now (i + 1) seen.old.items list.old.items }
    requires unseen { get_or seen.old.items i true ≡ true → ⊥ }
    ensures done { IfOk result (λ done. Sieved k columns.now masks.now i seen.new.items list.new.items) }
    ensures fault { IfErr result (λ f. IsNewFault k columns.now (Contains masks.now) f) }
{
    match one(alloc, k, columns, parts, masks, seen, i) {
        Err(fault) => Err(fault),
        Ok(c) => {
            let Ok(()) = add(list, c) else {
                return Err(ConesFault::NoMemory);
            };
            Ok(())
        }
    }
}

/// The cones, by ascending least mask.
fn sieved(
    alloc: Global,
    k: usize,
    columns: &[IVec],
    parts: &[IVec],
    masks: &[u16],
) -> Result<Vec<OrbitCone>, ConesFault>
    requires grading { IsGrading k columns.now }
    requires short { All (IsShort k) columns.now }
    requires parts { AreZipped IsPrimitivePart columns.now parts.now }
    requires faces { AreFaces k columns.now masks.now }
    ensures sieved { IfOk result (λ v. (seen : List Bool) × Sieved k columns.now masks.now 0 seen v.items) }
    ensures fault { IfErr result (λ f. IsNewFault k columns.now (Contains masks.now) f) }
{
    let mut list = Vec::new(alloc);
    let Ok(mut seen) = blank(alloc, masks.len()) else {
        return Err(ConesFault::NoMemory);
    };
    for j in 0..masks.len() {
        let i = masks.len() - 1 - j;
        if !is_seen(&seen, i) {
            add_one(alloc, &mut list, k, columns, parts, masks, &mut seen, i)?;
        }
    }
    Ok(list)
}

/// The same cones by descending greatest mask.
fn sorted(list: Vec<OrbitCone>) -> Vec<OrbitCone>
    ensures same { IsPermutation list.items result.items }
    ensures sorted { AllPairs (λ (c d : OrbitCone). d.greatest ≤ c.greatest) result.items }
{
    let mut all = list;
    all.sort_unstable_by(
        |a, b| -> Ordering
            ensures { result ≡ nat_cmp b.now.greatest a.now.greatest }
        { b.greatest.cmp(&a.greatest) },
    );
    all
}

impl Cones {
    /// The distinct cones of these faces.
    pub fn new(alloc: Global, g: &Grading, masks: &[u16]) -> Result<Cones, ConesFault>
        requires { AreFaces g.now.k g.now.columns masks.now }
        ensures k { IfOk result (λ c. c.k ≡ g.now.k) }
        ensures cones { IfOk result (λ c. AreOrbitCones g.now.k g.now.columns (Contains masks.now) c.list) }
        ensures fault { IfErr result (λ f. IsNewFault g.now.k g.now.columns (Contains masks.now) f) }
    {
        let k = g.k();
        let columns = g.columns();
        let Ok(parts) = parts(alloc, k, columns) else {
            return Err(ConesFault::NoMemory);
        };
        let found = sieved(alloc, k, columns, &parts, masks)?;
        let list = sorted(found);
        let Ok(index) = indexed(alloc, k, &list) else {
            return Err(ConesFault::NoMemory);
        };
        Ok(Cones { k, list, index })
    }
}
