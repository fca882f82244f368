//! The faces of the chambers of a listing.
ghost use Rattle.std.specs.Prelude.{◌≡◌, ◌↔◌, ◌≤◌, ◌∷◌, [], All, AllPairs, Contains, IfOk, IfErr, List, map};
ghost use Rattle.git_defs.specs.Cones.{InCone};
ghost use Rattle.git_defs.specs.Vectors.{Vector};
ghost use Rattle.git_stages.specs.Ranks.{IsRank};
ghost use Rattle.git_stages.specs.Short.{IsShort};
ghost use Rattle.git_cone_faces.specs.Faces.{AreRaysOfFace};
ghost use Rattle.git_cone_faces.specs.Families.{AreRaysOfSomeFace};
ghost use Rattle.git_cone_faces.specs.Filters.{with_wall};
ghost use Rattle.git_listing.specs.Views.{listing_of};
ghost use Rattle.git_allcones.specs.Cones.{AreShortCones, IsShortCone, cone_of, cones_of};
ghost use Rattle.git_allcones.specs.Faces.{AreAllFaces, ComesBefore, Face, IsAllFault, StandsBefore, face_of, faces_size, lists_size, rays_of_face};
ghost use Rattle.git_allcones.specs.Sets.{SameLists, vectors_of};

use crate::cones::{ListedCone, copied, listed_cones};
use crate::sets::{AllFault, FACES, few_lists, gathered};
use git_base::NoMemory;
use git_ints::IVec;
use git_listing::Listing;
use git_rank::rank;
use git_stages::{add, is_level};
use std::alloc::Global;

/// A face by its dimension, the greatest number of independent rays, and its rays, the extreme vectors in
/// order. The face that holds 0 alone has none.
#[derive(Debug, Drop, PartialEq, Eq, PartialOrd, Ord)]
pub struct FaceOf {
    pub dimension: u32,
    pub rays: Vec<IVec>,
}

/// The vectors at which a normal is 0.
fn on_wall(alloc: Global, k: usize, normal: &IVec, vs: &[IVec]) -> Result<Vec<IVec>, NoMemory>
    requires normal { IsShort k normal.now }
    requires vs { All (IsShort k) vs.now }
    ensures { IfOk result (λ v. v.items ≡ Rattle.git_cone_faces.specs.Faces.on_wall normal.now vs.now) }
{
    let mut out = Vec::new(alloc);
    for v in vs {
        if is_level(k, normal, v) {
            add(&mut out, *v)?;
        }
    }
    Ok(out)
}

/// Of each list the vectors at which a normal is 0.
fn on_walls(
    alloc: Global,
    k: usize,
    normal: &IVec,
    lists: &[Vec<IVec>],
) -> Result<Vec<Vec<IVec>>, NoMemory>
    requires normal { IsShort k normal.now }
    requires lists { (vs : List Vector) → Contains (map vectors_of lists.now) vs → All (IsShort k) vs }
    ensures { IfOk result (λ v. map vectors_of v.items ≡ map (Rattle.git_cone_faces.specs.Faces.on_wall normal.now) (map vectors_of lists.now)) }
{
    let mut out = Vec::new(alloc);
    for list in lists {
        let level = on_wall(alloc, k, normal, list)?;
        add(&mut out, level)?;
    }
    Ok(out)
}

/// The lists, and of each the vectors at which a normal is 0, each once, where they are not too many.
fn with_wall(
    alloc: Global,
    k: usize,
    normal: &IVec,
    lists: Vec<Vec<IVec>>,
) -> Result<Vec<Vec<IVec>>, AllFault>
    requires normal { IsShort k normal.now }
    requires lists { (vs : List Vector) → Contains (map vectors_of lists.items) vs → All (IsShort k) vs }
    ensures same { IfOk result (λ v. SameLists (map vectors_of v.items) (with_wall normal.now (map vectors_of lists.items))) }
    ensures fault { IfErr result (λ f. IsAllFault (Contains (with_wall normal.now (map vectors_of lists.items))) f) }
{
    let Ok(mut level) = on_walls(alloc, k, normal, &lists) else {
        return Err(AllFault::NoMemory);
    };
    let mut all = lists;
    if all.append(&mut level).is_err() {
        return Err(AllFault::NoMemory);
    }
    few_lists(all)
}

/// The list of all rays alone.
fn whole(alloc: Global, rays: &[IVec]) -> Result<Vec<Vec<IVec>>, NoMemory>
    ensures { IfOk result (λ v. map vectors_of v.items ≡ rays.now ∷ []) }
{
    let mut out = Vec::new(alloc);
    let all = copied(alloc, rays)?;
    add(&mut out, all)?;
    Ok(out)
}

/// The faces of a cone, each by its rays.
fn faces_of_cone(alloc: Global, k: usize, cone: &ListedCone) -> Result<Vec<Vec<IVec>>, AllFault>
    requires { IsShortCone k (cone_of cone.now) }
    ensures each { IfOk result (λ v. (vs : List Vector) → Contains (map vectors_of v.items) vs ↔ AreRaysOfFace k (InCone k cone.now.rays.items) vs) }
    ensures fault { IfErr result (λ f. IsAllFault (AreRaysOfFace k (InCone k cone.now.rays.items)) f) }
{
    let Ok(mut lists) = whole(alloc, &cone.rays) else {
        return Err(AllFault::NoMemory);
    };
    for normal in &cone.facets {
        lists = with_wall(alloc, k, normal, lists)?;
    }
    Ok(lists)
}

/// The faces of some cones, each once by its rays, where they are not too many.
fn faces_of_cones(alloc: Global, k: usize, cones: &[ListedCone]) -> Result<Vec<Vec<IVec>>, AllFault>
    requires { AreShortCones k (map cone_of cones.now) }
    ensures sorted { IfOk result (λ v. AllPairs StandsBefore (map vectors_of v.items)) }
    ensures each { IfOk result (λ v. (vs : List Vector) → Contains (map vectors_of v.items) vs ↔ AreRaysOfSomeFace k (map cone_of cones.now) vs) }
    ensures few { IfOk result (λ v. lists_size (map vectors_of v.items) ≤ FACES) }
    ensures fault { IfErr result (λ f. IsAllFault (AreRaysOfSomeFace k (map cone_of cones.now)) f) }
{
    let mut all = Vec::new(alloc);
    for cone in cones {
        let faces = faces_of_cone(alloc, k, cone)?;
        all = gathered(all, faces)?;
    }
    few_lists(all)
}

/// A face with its dimension.
fn face(alloc: Global, k: usize, list: &[IVec]) -> Result<FaceOf, NoMemory>
    requires six { k ≤ 6 }
    requires short { All (IsShort k) list.now }
    ensures rays { IfOk result (λ f. f.rays.items ≡ list.now) }
    ensures dimension { IfOk result (λ f. IsRank k list.now f.dimension) }
{
    let dimension = rank(alloc, k, list)? as u32;
    let rays = copied(alloc, list)?;
    Ok(FaceOf { dimension, rays })
}

/// The faces with their dimensions.
fn with_dimensions(alloc: Global, k: usize, lists: &[Vec<IVec>]) -> Result<Vec<FaceOf>, NoMemory>
    requires six { k ≤ 6 }
    requires short { (vs : List Vector) → Contains (map vectors_of lists.now) vs → All (IsShort k) vs }
    ensures rays { IfOk result (λ v. map rays_of_face (map face_of v.items) ≡ map vectors_of lists.now) }
    ensures dimensions { IfOk result (λ v. (f : Face) → Contains (map face_of v.items) f → IsRank k f.rays f.dimension) }
{
    let mut out = Vec::new(alloc);
    for list in lists {
        let f = face(alloc, k, list)?;
        add(&mut out, f)?;
    }
    Ok(out)
}

/// The faces in order.
fn in_order(faces: Vec<FaceOf>) -> Vec<FaceOf>
    ensures sorted { AllPairs ComesBefore (map face_of result.items) }
    ensures same { (f : Face) → Contains (map face_of result.items) f ↔ Contains (map face_of faces.items) f }
{
    let mut all = faces;
    all.sort_unstable();
    all.dedup();
    all
}

/// All faces of the chambers of a listing of dimension `k`, each once, by ascending dimension and then by
/// their lists of rays. There are too many exactly where the faces and the rays in them are together more
/// than `FACES`.
pub fn all_faces(alloc: Global, k: u32, listing: &Listing) -> Result<Vec<FaceOf>, AllFault>
    requires { AreShortCones k (cones_of (listing_of listing.now)) }
    ensures all { IfOk result (λ v. AreAllFaces k (cones_of (listing_of listing.now)) (map face_of v.items)) }
    ensures few { IfOk result (λ v. faces_size (map face_of v.items) ≤ FACES) }
    ensures fault { IfErr result (λ f. IsAllFault (AreRaysOfSomeFace k (cones_of (listing_of listing.now))) f) }
{
    let Ok(cones) = listed_cones(alloc, listing) else {
        return Err(AllFault::NoMemory);
    };
    let lists = faces_of_cones(alloc, k as usize, &cones)?;
    match with_dimensions(alloc, k as usize, &lists) {
        Ok(faces) => Ok(in_order(faces)),
        Err(NoMemory) => Err(AllFault::NoMemory),
    }
}
