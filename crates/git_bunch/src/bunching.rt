//! The bunches of the chambers of a listing.
ghost use Rattle.std.specs.Prelude.{◌≡◌, ◌≤◌, ◌<◌, ◌^◌, [], ◌∷◌, All, IfOk, length, map};
ghost use Rattle.git_defs.specs.Vectors.{vector_sum};
ghost use Rattle.git_cone_faces.specs.Faces.{on_wall};
ghost use Rattle.git_limits.specs.declared.TheConstants.{MANY};
ghost use Rattle.git_listing.specs.Views.{chamber_of, facet_of};
ghost use Rattle.git_stages.specs.Short.{IsShort};
ghost use Rattle.git_orbit.specs.Signatures.{IsSignature};
ghost use Rattle.git_chamber.specs.Chambers.{crossing};
ghost use Rattle.git_bunch.specs.Stable.{Family, IsFamily, family};
ghost use Rattle.git_bunch.specs.Bunches.{AreBunches, IsCrossedListing, IsSizedChamber};
ghost use Rattle.git_bunch.specs.Changes.{AreChanges, IsBunchAlone, IsChangeTo};
ghost use Rattle.git_bunch.specs.Groups.{AreGroups};
ghost use Rattle.git_bunch.specs.Views.{bunch_of, step_of};

use crate::gathering::{minimal_of, only_on};
use crate::groups::{Group, grouped};
use crate::values::{Bunch, Step};
use git_base::NoMemory;
use git_chamber::{crossing_germ, wall_sum};
use git_grading::Grading;
use git_ints::IVec;
use git_listing::{ListedChamber, ListedSide, Listing};
use git_machine::Sig;
use git_orbit::Cones;
use git_stages::add;
use std::alloc::Global;

/// The cones behind the wall with this normal of a chamber with these rays.
fn cones_behind(alloc: Global, cones: &Cones, rays: &[IVec], normal: &IVec) -> Result<Sig, NoMemory>
    requires rays { All (IsShort cones.now.k) rays.now }
    requires few { length rays.now ≤ MANY }
    requires normal { IsShort cones.now.k normal.now }
    ensures { IfOk result (λ s. IsSignature cones.now (crossing cones.now.k rays.now normal.now) s) }
{
    cones.signature(alloc, &crossing_germ(cones.k, rays, normal))
}

/// The cones that hold the middle of the wall.
fn cones_on(alloc: Global, cones: &Cones, rays: &[IVec], normal: &IVec) -> Result<Sig, NoMemory>
    requires rays { All (IsShort cones.now.k) rays.now }
    requires few { length rays.now ≤ MANY }
    requires normal { IsShort cones.now.k normal.now }
    ensures { IfOk result (λ s. IsSignature cones.now (vector_sum cones.now.k (on_wall normal.now rays.now) ∷ []) s) }
{
    cones.signature_of_weight(alloc, &wall_sum(cones.k, normal, rays))
}

/// What changes at the wall with this normal of a chamber with these rays, whose cones are the set. Behind it lies the
/// chamber with this number.
fn change(
    alloc: Global,
    cones: &Cones,
    groups: &[Group],
    set: &Sig,
    rays: &[IVec],
    normal: &IVec,
    to: u32,
) -> Result<Step, NoMemory>
    requires groups { length groups.now < 2 ^ 32 }
    requires rays { All (IsShort cones.now.k) rays.now }
    requires few { length rays.now ≤ MANY }
    requires normal { IsShort cones.now.k normal.now }
    ensures { IfOk result (λ s. IsChangeTo cones.now groups.now set.now rays.now normal.now to (step_of s)) }
{
    let other = cones_behind(alloc, cones, rays, normal)?;
    let middle = cones_on(alloc, cones, rays, normal)?;
    let lost = only_on(alloc, groups, set, &other, &other)?;
    let gained = only_on(alloc, groups, &other, set, set)?;
    let wall = only_on(alloc, groups, &middle, set, &other)?;
    Ok(Step {
        normal: *normal,
        to,
        lost,
        gained,
        wall,
    })
}

/// What changes at the inner facets of a chamber, in order.
fn steps(
    alloc: Global,
    cones: &Cones,
    groups: &[Group],
    set: &Sig,
    chamber: &ListedChamber,
) -> Result<Vec<Step>, NoMemory>
    requires groups { length groups.now < 2 ^ 32 }
    requires sized { IsSizedChamber cones.now.k (chamber_of chamber.now) }
    ensures { IfOk result (λ v. AreChanges cones.now groups.now set.now chamber.now.rays.items (map facet_of chamber.now.facets.items) (map step_of v.items)) }
{
    let mut out = Vec::new(alloc);
    for facet in &chamber.facets {
        if let ListedSide::Inner { chamber: to, .. } = facet.side {
            let step = change(alloc, cones, groups, set, &chamber.rays, &facet.normal, to)?;
            add(&mut out, step)?;
        }
    }
    Ok(out)
}

/// The bunch of a chamber.
fn bunch_alone(
    alloc: Global,
    cones: &Cones,
    groups: &[Group],
    chamber: &ListedChamber,
) -> Result<Bunch, NoMemory>
    requires groups { length groups.now < 2 ^ 32 }
    requires sized { IsSizedChamber cones.now.k (chamber_of chamber.now) }
    ensures { IfOk result (λ b. IsBunchAlone cones.now groups.now (chamber_of chamber.now) (bunch_of b)) }
{
    let set = cones.holding(alloc, &chamber.rays)?;
    let minimal = minimal_of(alloc, groups, &set)?;
    let steps = steps(alloc, cones, groups, &set, chamber)?;
    Ok(Bunch { minimal, steps })
}

/// The bunch of each chamber of a listing, in order: its minimal stable faces, and what changes at each of its inner
/// facets.
///
/// The masks are those of the full a-faces of the grading, descending, and the cones are theirs. Each chamber has at
/// most 65,536 rays; rays and normals have `k` entries of at most 2^40 in absolute value. Each facet is said to be
/// boundary or inner as it is crossed, an inner one with the number of a chamber whose cones are those behind it.
///
/// # Errors
///
/// `NoMemory`: memory ran out.
pub fn bunch(
    alloc: Global,
    cones: &Cones,
    g: &Grading,
    free: &[u16],
    listing: &Listing,
) -> Result<Vec<Bunch>, NoMemory>
    requires entries { cones.now.k ≡ g.now.k }
    requires family { IsFamily (family cones.now g.now.columns free.now) }
    requires listing { IsCrossedListing cones.now (map chamber_of listing.now.chambers.items) }
    ensures { IfOk result (λ v. AreBunches (family cones.now g.now.columns free.now) (map chamber_of listing.now.chambers.items) (map bunch_of v.items)) }
{
    let groups = grouped(alloc, cones, g, free)?;
    let mut out = Vec::new(alloc);
    for chamber in &listing.chambers {
        add(&mut out, bunch_alone(alloc, cones, &groups, chamber)?)?;
    }
    Ok(out)
}
