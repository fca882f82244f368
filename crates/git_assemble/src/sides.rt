//! Chambers with what lies behind their facets, by the numbers of chambers.
ghost use Rattle.std.specs.Prelude.{◌≡◌, ◌↔◌, ◌≤◌, Bool, IfOk, IsTrue, length, map, All};
ghost use Rattle.std.specs.List.{AllZip};
ghost use Rattle.std.specs.BTreeMap.{get};
ghost use Rattle.git_machine.specs.Signatures.{signature_cmp};
ghost use Rattle.git_defs.specs.Vectors.{AllOfLength};
ghost use Rattle.git_stages.specs.Short.{IsShort};
ghost use Rattle.git_listing.specs.Listings.{inner};
ghost use Rattle.git_listing.specs.Views.{side_of, facet_of, chamber_of};
ghost use Rattle.git_assemble.specs.Making.{signatures_in, IsNumbering, LeadsInto, IsNumberedSide, IsReady, IsMade, Shares};

use crate::matching::is_shared;
use git_base::NoMemory;
use git_chamber::{Chamber, Side, behind};
use git_ints::IVec;
use git_listing::{ListedChamber, ListedFacet, ListedSide};
use git_machine::Sig;
use git_orbit::Cones;
use std::alloc::Global;
use std::collections::BTreeMap;

/// The number at a signature.
fn number_at(numbers: &BTreeMap<Sig, u32>, sig: &Sig) -> Option<u32>
    ensures { result ≡ get signature_cmp numbers.now sig.now }
{
    numbers.get(sig).copied()
}

/// The inner side with the chamber of a number, from 1.
fn inner_side(
    alloc: Global,
    k: usize,
    chambers: &[Chamber],
    number: u32,
    rays: &[IVec],
    normal: &IVec,
) -> Result<ListedSide, NoMemory>
    requires from_one { 1 ≤ number }
    requires in_range { number ≤ length chambers.now }
    requires lengths { All (λ d. AllOfLength k d.rays) chambers.now }
    requires rays { All (IsShort k) rays.now }
    requires normal { IsShort k normal.now }
    ensures { IfOk result (λ s. (matched : Bool) × (side_of s ≡ inner number matched) × (IsTrue matched ↔ Shares chambers.now number rays.now normal.now)) }
{
    let other = &chambers[number as usize - 1];
    let matched = is_shared(alloc, k, normal, rays, other)?;
    Ok(ListedSide::Inner {
        chamber: number,
        matched,
    })
}

/// What lies behind a facet.
fn side_at(
    alloc: Global,
    cones: &Cones,
    numbers: &BTreeMap<Sig, u32>,
    chambers: &[Chamber],
    rays: &[IVec],
    normal: &IVec,
) -> Result<ListedSide, NoMemory>
    requires numbers { IsNumbering (signatures_in chambers.now) numbers.now }
    requires lengths { All (λ d. AllOfLength cones.now.k d.rays) chambers.now }
    requires rays { All (IsShort cones.now.k) rays.now }
    requires few { length rays.now ≤ 65536 }
    requires normal { IsShort cones.now.k normal.now }
    requires leads { LeadsInto cones.now numbers.now rays.now normal.now }
    ensures { IfOk result (λ s. IsNumberedSide cones.now numbers.now chambers.now rays.now normal.now (side_of s)) }
{
    match behind(alloc, cones, rays, normal)? {
        Side::Boundary(_) => Ok(ListedSide::Boundary),
        Side::Inner(sig) => match number_at(numbers, &sig) {
            Some(number) => inner_side(alloc, cones.k, chambers, number, rays, normal),
            None => unreachable!(),
        },
    }
}

/// The facets of a chamber with these rays, in their order.
fn facets_of(
    alloc: Global,
    cones: &Cones,
    numbers: &BTreeMap<Sig, u32>,
    chambers: &[Chamber],
    rays: &[IVec],
    normals: &[IVec],
) -> Result<Vec<ListedFacet>, NoMemory>
    requires numbers { IsNumbering (signatures_in chambers.now) numbers.now }
    requires lengths { All (λ d. AllOfLength cones.now.k d.rays) chambers.now }
    requires rays { All (IsShort cones.now.k) rays.now }
    requires few { length rays.now ≤ 65536 }
    requires normals { All (IsShort cones.now.k) normals.now }
    requires leads { All (LeadsInto cones.now numbers.now rays.now) normals.now }
    ensures normals { IfOk result (λ v. map (λ f. f.normal) v.items ≡ normals.now) }
    ensures sides { IfOk result (λ v. All (λ f. IsNumberedSide cones.now numbers.now chambers.now rays.now f.normal (side_of f.side)) v.items) }
{
    let mut facets = Vec::new(alloc);
    for normal in normals {
        let side = side_at(alloc, cones, numbers, chambers, rays, normal)?;
        facets.push(ListedFacet {
            normal: *normal,
            side,
        })?;
    }
    Ok(facets)
}

/// The chamber as it is listed.
fn listed(
    alloc: Global,
    cones: &Cones,
    numbers: &BTreeMap<Sig, u32>,
    chambers: &[Chamber],
    c: &Chamber,
) -> Result<ListedChamber, NoMemory>
    requires numbers { IsNumbering (signatures_in chambers.now) numbers.now }
    requires lengths { All (λ d. AllOfLength cones.now.k d.rays) chambers.now }
    requires ready { IsReady cones.now numbers.now c.now }
    ensures { IfOk result (λ l. IsMade cones.now numbers.now chambers.now c.now (chamber_of l)) }
{
    let facets = facets_of(alloc, cones, numbers, chambers, &c.rays, &c.facets)?;
    let rays = Vec::from_slice(alloc, &c.rays)?;
    Ok(ListedChamber {
        rays,
        weight: c.weight,
        crossed: c.crossed,
        facets,
    })
}

/// The chambers as they are listed, in their order.
pub(crate) fn listed_all(
    alloc: Global,
    cones: &Cones,
    numbers: &BTreeMap<Sig, u32>,
    chambers: &[Chamber],
) -> Result<Vec<ListedChamber>, NoMemory>
    requires numbers { IsNumbering (signatures_in chambers.now) numbers.now }
    requires ready { All (IsReady cones.now numbers.now) chambers.now }
    ensures { IfOk result (λ v. AllZip (IsMade cones.now numbers.now chambers.now) chambers.now (map chamber_of v.items)) }
{
    let mut all = Vec::new(alloc);
    for c in chambers {
        all.push(listed(alloc, cones, numbers, chambers, c)?)?;
    }
    Ok(all)
}
