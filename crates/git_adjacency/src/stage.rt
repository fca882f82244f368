//! One stage: the extreme vectors after one inequality more.
ghost use Rattle.std.specs.Prelude.{◌≡◌, ◌↔◌, ◌⊎◌, ◌<◌, ◌≤◌, ◌*◌, ◌+◌, ◌<ℤ◌, ◌≤ℤ◌, ℕ, List, ℤ, pos, All, IfOk, IsTrue, [], ◌∷◌, ◌++◌, length, get_or, take, Contains};
ghost use Rattle.git_defs.specs.Vectors.{Vector, dot};
ghost use Rattle.git_defs.specs.Cones.{Cut, IsPointed};
ghost use Rattle.git_geometry.specs.Zeros.{Flat, Adjacent, ZeroOnBoth};
ghost use Rattle.git_geometry.specs.Stages.{blend, IsNext, Exact};
ghost use Rattle.git_ints.specs.Content.{IsPrimitivePart};
ghost use Rattle.git_stages.specs.Short.{IsShort};
ghost use Rattle.git_adjacency.specs.Making.{IsSided, IsPlaced, Makes, MakesAll};
ghost use Rattle.git_adjacency.specs.Marks.{IsMarked, IsRay, vectors};
ghost use Rattle.git_adjacency.specs.Sides.{IsMarkedRay, AreMarkedSides, IsFit, IsReady, HasAdded, HasZeros, IsMoved, all_of};

use crate::marks::{common, has_common, mark, share_enough};
use crate::ray::Ray;
use git_base::NoMemory;
use git_ints::IVec;
use git_stages::{add, is_level, is_same, product, turned};
use std::alloc::Global;

/// The vectors above an inequality, on it, and below it.
#[derive(Drop)]
pub struct Sides {
    pub above: Vec<Ray>,
    pub level: Vec<Ray>,
    pub below: Vec<Ray>,
}

/// The same vector, with a mark more.
fn with_mark(ray: Ray, bit: usize, inequalities: &[IVec], b: &IVec, width: usize) -> Ray
    requires bit { bit ≡ length inequalities.now }
    requires room { bit < 64 * width }
    requires marked { IsMarked inequalities.now width ray.vector ray.zeros.items }
    requires level { dot b.now ray.vector ≡ pos 0 }
    ensures vector { result.vector ≡ ray.vector }
    ensures marked { IsMarked (inequalities.now ++ b.now ∷ []) width result.vector result.zeros.items }
{
    let Ray { vector, mut zeros } = ray;
    mark(&mut zeros, bit);
    Ray { vector, zeros }
}

/// Puts one vector on its side.
fn place(
    k: usize,
    inequalities: &[IVec],
    b: &IVec,
    width: usize,
    ray: Ray,
    sides: &mut Sides,
) -> Result<(), NoMemory>
    requires b { IsShort k b.now }
    requires ray { IsRay k inequalities.now width ray }
    requires room { length inequalities.now < 64 * width }
    requires sides { AreMarkedSides (inequalities.now ++ b.now ∷ []) width sides.old }
    ensures placed { IfOk result (λ done. IsPlaced b.now ray.vector (vectors sides.old.above.items) (vectors sides.old.level.items) (vectors sides.old.below.items)
        (vectors sides.new.above.items) (vectors sides.new.level.items) (vectors sides.new.below.items)) }
    ensures marked { IfOk result (λ done. AreMarkedSides (inequalities.now ++ b.now ∷ []) width sides.new) }
{
    let at = product(k, b, &ray.vector);
    if at > 0 {
        let _above = add(&mut sides.above, ray)?;
        return Ok(());
    }
    if at < 0 {
        let _below = add(&mut sides.below, ray)?;
        return Ok(());
    }
    let _level = add(
        &mut sides.level,
        with_mark(ray, inequalities.len(), inequalities, b, width),
    )?;
    Ok(())
}

/// Puts each vector on its side.
fn sided(
    alloc: Global,
    k: usize,
    inequalities: &[IVec],
    b: &IVec,
    width: usize,
    rays: Vec<Ray>,
) -> Result<Sides, NoMemory>
    requires b { IsShort k b.now }
    requires rays { All (IsRay k inequalities.now width) rays.items }
    requires room { length inequalities.now < 64 * width }
    ensures sided { IfOk result (λ s. IsSided b.now (vectors rays.items) (vectors s.above.items) (vectors s.level.items) (vectors s.below.items)) }
    ensures marked { IfOk result (λ s. AreMarkedSides (inequalities.now ++ b.now ∷ []) width s) }
{
    let mut left = rays;
    let mut sides = Sides {
        above: Vec::new(alloc),
        level: Vec::new(alloc),
        below: Vec::new(alloc),
    };
    'moving: loop {
        match left.pop() {
            Some(ray) => {
                place(k, inequalities, b, width, ray, &mut sides)?;
            }
            None => {
                return Ok(sides);
            }
        }
    }
}

/// Whether the third vector is 0 wherever both others are.
fn has_zeros(upto: &[IVec], width: usize, r: &Ray, s: &Ray, t: &Ray) -> bool
    requires r { IsMarkedRay upto.now width r.now }
    requires s { IsMarkedRay upto.now width s.now }
    requires t { IsMarkedRay upto.now width t.now }
    ensures { IsTrue result ↔ Flat (ZeroOnBoth r.now.vector s.now.vector) upto.now t.now.vector }
{
    has_common(&r.zeros, &s.zeros, &t.zeros)
}

/// Whether a vector is one of two.
fn is_one_of(r: &IVec, s: &IVec, t: &IVec) -> bool
    ensures { IsTrue result ↔ ((r.now ≡ t.now) ⊎ (s.now ≡ t.now)) }
{
    is_same(r, t) || is_same(s, t)
}

/// Whether a vector is one of two, or lacks a zero that both have.
fn leaves_apart(upto: &[IVec], width: usize, r: &Ray, s: &Ray, t: &Ray) -> bool
    requires r { IsMarkedRay upto.now width r.now }
    requires s { IsMarkedRay upto.now width s.now }
    requires t { IsMarkedRay upto.now width t.now }
    ensures { IsTrue result ↔ (Flat (ZeroOnBoth r.now.vector s.now.vector) upto.now t.now.vector → (r.now.vector ≡ t.now.vector) ⊎ (s.now.vector ≡ t.now.vector)) }
{
    !has_zeros(upto, width, r, s, t) || is_one_of(&r.vector, &s.vector, &t.vector)
}

/// Whether no third of these vectors has the zeros of both.
pub fn is_adjacent(upto: &[IVec], width: usize, rays: &[Ray], r: &Ray, s: &Ray) -> bool
    requires rays { All (IsMarkedRay upto.now width) rays.now }
    requires r { IsMarkedRay upto.now width r.now }
    requires s { IsMarkedRay upto.now width s.now }
    ensures { IsTrue result ↔ Adjacent upto.now (vectors rays.now) r.now.vector s.now.vector }
{
    for t in rays {
        if !leaves_apart(upto, width, r, s, t) {
            return false;
        }
    }
    true
}

/// Whether no third vector has the zeros of both.
fn are_neighbours(upto: &[IVec], width: usize, sides: &Sides, r: &Ray, s: &Ray) -> bool
    requires sides { AreMarkedSides upto.now width sides.now }
    requires r { IsMarkedRay upto.now width r.now }
    requires s { IsMarkedRay upto.now width s.now }
    ensures { IsTrue result ↔ Adjacent upto.now (all_of sides.now) r.now.vector s.now.vector }
{
    let on_level = is_adjacent(upto, width, &sides.level, r, s);
    if !on_level {
        return false;
    }
    let on_above = is_adjacent(upto, width, &sides.above, r, s);
    if !on_above {
        return false;
    }
    let on_below = is_adjacent(upto, width, &sides.below, r, s);
    on_below
}

/// Whether two vectors are neighbours. Those that are share at least `k - 2` zeros, which are counted
/// first.
fn meet(k: usize, upto: &[IVec], width: usize, sides: &Sides, r: &Ray, s: &Ray) -> bool
    requires upto { All (IsShort k) upto.now }
    requires sides { AreMarkedSides upto.now width sides.now }
    requires r { IsMarkedRay upto.now width r.now }
    requires s { IsMarkedRay upto.now width s.now }
    requires enough { Adjacent upto.now (all_of sides.now) r.now.vector s.now.vector → (zeros : List Vector) → HasZeros k upto.now r.now.vector s.now.vector zeros → k ≤ length zeros + 2 }
    ensures { IsTrue result ↔ Adjacent upto.now (all_of sides.now) r.now.vector s.now.vector }
{
    if !share_enough(k, &r.zeros, &s.zeros) {
        return false;
    }
    are_neighbours(upto, width, sides, r, s)
}

/// The blend of two vectors, with its marks.
fn blended(
    alloc: Global,
    k: usize,
    front: &[IVec],
    upto: &[IVec],
    b: &IVec,
    width: usize,
    r: &Ray,
    s: &Ray,
) -> Result<Ray, NoMemory>
    requires last { upto.now ≡ front.now ++ b.now ∷ [] }
    requires room { length front.now < 64 * width }
    requires b { IsShort k b.now }
    requires r { IsFit k front.now upto.now width r.now }
    requires s { IsFit k front.now upto.now width s.now }
    requires above { pos 0 <ℤ dot b.now r.now.vector }
    requires below { dot b.now s.now.vector <ℤ pos 0 }
    ensures part { IfOk result (λ w. IsPrimitivePart (blend b.now r.now.vector s.now.vector) w.vector) }
    ensures marked { IfOk result (λ w. IsMarkedRay upto.now width w) }
{
    let vector = turned(k, b, &r.vector, &s.vector);
    let zeros = common(alloc, &r.zeros, &s.zeros, front.len())?;
    Ok(Ray { vector, zeros })
}

/// Adds the blend of two vectors, if they are neighbours.
fn add_blend(
    alloc: Global,
    k: usize,
    front: &[IVec],
    upto: &[IVec],
    b: &IVec,
    width: usize,
    sides: &Sides,
    r: &Ray,
    s: &Ray,
    out: &mut Vec<Ray>,
) -> Result<(), NoMemory>
    requires ready { IsReady k front.now upto.now b.now width sides.now }
    requires r { IsFit k front.now upto.now width r.now }
    requires s { IsFit k front.now upto.now width s.now }
    requires r_in { Contains (all_of sides.now) r.now.vector }
    requires s_in { Contains (all_of sides.now) s.now.vector }
    requires above { pos 0 <ℤ dot b.now r.now.vector }
    requires below { dot b.now s.now.vector <ℤ pos 0 }
    ensures { IfOk result (λ done. HasAdded upto.now (all_of sides.now) b.now width r.now.vector s.now.vector out.old.items out.new.items) }
{
    if !meet(k, upto, width, sides, r, s) {
        return Ok(());
    }
    let ray = blended(alloc, k, front, upto, b, width, r, s)?;
    add(out, ray)?;
    Ok(())
}

/// Adds the blends of one vector above with its neighbours below.
fn add_blends(
    alloc: Global,
    k: usize,
    front: &[IVec],
    upto: &[IVec],
    b: &IVec,
    width: usize,
    sides: &Sides,
    r: &Ray,
    below: &[Ray],
    out: &mut Vec<Ray>,
) -> Result<(), NoMemory>
    requires ready { IsReady k front.now upto.now b.now width sides.now }
    requires r { IsFit k front.now upto.now width r.now }
    requires above { pos 0 <ℤ dot b.now r.now.vector }
    requires r_in { Contains (all_of sides.now) r.now.vector }
    requires below { below.now ≡ sides.now.below.items }
    requires marked { All (IsMarkedRay upto.now width) out.old.items }
    ensures makes { IfOk result (λ done. Makes upto.now (all_of sides.now) b.now r.now.vector (vectors below.now) (vectors out.old.items) (vectors out.new.items)) }
    ensures marked { IfOk result (λ done. All (IsMarkedRay upto.now width) out.new.items) }
{
    for s in below {
        add_blend(alloc, k, front, upto, b, width, sides, r, s, out)?;
    }
    Ok(())
}

/// The blends of all vectors above with their neighbours below.
fn all_blends(
    alloc: Global,
    k: usize,
    front: &[IVec],
    upto: &[IVec],
    b: &IVec,
    width: usize,
    sides: &Sides,
    above: &[Ray],
) -> Result<Vec<Ray>, NoMemory>
    requires ready { IsReady k front.now upto.now b.now width sides.now }
    requires above { above.now ≡ sides.now.above.items }
    ensures makes { IfOk result (λ v. MakesAll upto.now (all_of sides.now) b.now (vectors above.now) (vectors sides.now.below.items) [] (vectors v.items)) }
    ensures marked { IfOk result (λ v. All (IsMarkedRay upto.now width) v.items) }
{
    let mut out = Vec::new(alloc);
    for r in above {
        add_blends(
            alloc,
            k,
            front,
            upto,
            b,
            width,
            sides,
            r,
            &sides.below,
            &mut out,
        )?;
    }
    Ok(out)
}

/// Moves all vectors of one list to another.
fn move_all(from: Vec<Ray>, out: &mut Vec<Ray>) -> Result<(), NoMemory>
    ensures { IfOk result (λ done. IsMoved from.items out.old.items out.new.items) }
{
    let mut left = from;
    'moving: loop {
        match left.pop() {
            Some(ray) => {
                add(out, ray)?;
            }
            None => {
                return Ok(());
            }
        }
    }
}

/// Whether one of the vectors is below an inequality.
fn cuts_off(k: usize, b: &IVec, rays: &[Ray]) -> bool
    requires b { IsShort k b.now }
    requires rays { All (λ r. IsShort k r.vector) rays.now }
    ensures { IsTrue result ↔ ((x : Vector) × Contains (vectors rays.now) x × (dot b.now x <ℤ pos 0)) }
{
    for r in rays {
        if product(k, b, &r.vector) < 0 {
            return true;
        }
    }
    false
}

/// Gives a vector the mark of an inequality, if it is on it.
fn mark_level(k: usize, inequalities: &[IVec], b: &IVec, width: usize, ray: &mut Ray)
    requires b { IsShort k b.now }
    requires ray { IsRay k inequalities.now width ray.old }
    requires room { length inequalities.now < 64 * width }
    ensures vector { ray.new.vector ≡ ray.old.vector }
    ensures marked { IsMarkedRay (inequalities.now ++ b.now ∷ []) width ray.new }
{
    if is_level(k, b, &ray.vector) {
        mark(&mut ray.zeros, inequalities.len());
    }
}

/// The same vectors, where those on an inequality have its mark.
fn with_marks(k: usize, inequalities: &[IVec], b: &IVec, width: usize, rays: Vec<Ray>) -> Vec<Ray>
    requires b { IsShort k b.now }
    requires rays { All (IsRay k inequalities.now width) rays.items }
    requires room { length inequalities.now < 64 * width }
    ensures vectors { vectors result.items ≡ vectors rays.items }
    ensures marked { All (IsMarkedRay (inequalities.now ++ b.now ∷ []) width) result.items }
{
    let mut out = rays;
    for i in 0..out.len() {
        mark_level(k, inequalities, b, width, &mut out[i]);
    }
    out
}

/// The vectors after the inequality at place `n`, which cuts some off.
fn after_cut(
    alloc: Global,
    k: usize,
    ordered: &[IVec],
    n: usize,
    width: usize,
    rays: Vec<Ray>,
) -> Result<Vec<Ray>, NoMemory>
    requires ordered { All (IsShort k) ordered.now }
    requires at { n < length ordered.now }
    requires room { length ordered.now ≤ 64 * width }
    requires rays { All (IsRay k (take n ordered.now) width) rays.items }
    requires pointed { IsPointed k (Cut k (take n ordered.now)) }
    requires exact { Exact k (take n ordered.now) (vectors rays.items) }
    ensures next { IfOk result (λ v. IsNext (take n ordered.now) (vectors rays.items) (get_or ordered.now n []) (vectors v.items)) }
    ensures marked { IfOk result (λ v. All (IsMarkedRay (take (n + 1) ordered.now) width) v.items) }
{
    let b = ordered[n];
    let front = &ordered[..n];
    let upto = &ordered[..n + 1];
    let sides = sided(alloc, k, front, &b, width, rays)?;
    let mut out = all_blends(alloc, k, front, upto, &b, width, &sides, &sides.above)?;
    let Sides {
        above,
        level,
        below,
    } = sides;
    let _ = below;
    let _above = move_all(above, &mut out)?;
    let _level = move_all(level, &mut out)?;
    Ok(out)
}

/// The vectors after the inequality at place `n`. Where it cuts none off, they stay where they are.
pub fn next(
    alloc: Global,
    k: usize,
    ordered: &[IVec],
    n: usize,
    width: usize,
    rays: Vec<Ray>,
) -> Result<Vec<Ray>, NoMemory>
    requires ordered { All (IsShort k) ordered.now }
    requires at { n < length ordered.now }
    requires room { length ordered.now ≤ 64 * width }
    requires rays { All (IsRay k (take n ordered.now) width) rays.items }
    requires pointed { IsPointed k (Cut k (take n ordered.now)) }
    requires exact { Exact k (take n ordered.now) (vectors rays.items) }
    ensures next { IfOk result (λ v. IsNext (take n ordered.now) (vectors rays.items) (get_or ordered.now n []) (vectors v.items)) }
    ensures marked { IfOk result (λ v. All (IsMarkedRay (take (n + 1) ordered.now) width) v.items) }
{
    if cuts_off(k, &ordered[n], &rays) {
        return after_cut(alloc, k, ordered, n, width, rays);
    }
    Ok(with_marks(k, &ordered[..n], &ordered[n], width, rays))
}
