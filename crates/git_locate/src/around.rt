//! The cones and the chambers that hold a weight.
ghost use Rattle.std.specs.Prelude.{◌≡◌, ◌↔◌, ◌<◌, ◌≤◌, ◌+◌, ◌^◌, ◌++◌, ◌∷◌, [], All, IfOk, IfSome, IsNone, IsTrue, length, map};
ghost use Rattle.git_defs.specs.Cones.{Cut, InCone};
ghost use Rattle.git_machine.specs.Signatures.{Has};
ghost use Rattle.git_listing.specs.Views.{chamber_of};
ghost use Rattle.git_stages.specs.Short.{IsShort};
ghost use Rattle.git_allcones.specs.Cones.{IsShortCone, cone_of_chamber};
ghost use Rattle.git_locate.specs.Positions.{AreNumbersOf, IsFirstBelow, IsListedAround};

use git_base::NoMemory;
use git_ints::IVec;
use git_listing::ListedChamber;
use git_machine::Sig;
use git_stages::{add, product};
use std::alloc::Global;

/// The first of the normals that is negative at a vector.
pub(crate) fn first_below(k: usize, normals: &[IVec], w: &IVec) -> Option<IVec>
    requires normals { All (IsShort k) normals.now }
    requires w { IsShort k w.now }
    ensures none { IsNone result → Cut k normals.now w.now }
    ensures some { IfSome result (λ n. IsFirstBelow normals.now w.now n) }
{
    for n in normals {
        if product(k, n, w) < 0 {
            return Some(*n);
        }
    }
    None
}

/// The numbers below `count` of a signature, ascending.
pub(crate) fn numbers_of(alloc: Global, sig: &Sig, count: u32) -> Result<Vec<u32>, NoMemory>
    ensures { IfOk result (λ v. AreNumbersOf (λ n. (n < count) × Has sig.now n) v.items) }
{
    let mut out = Vec::new(alloc);
    for n in 0..count {
        if sig.has(n) {
            add(&mut out, n)?;
        }
    }
    Ok(out)
}

/// Whether a chamber holds a vector.
fn holds(k: usize, chamber: &ListedChamber, w: &IVec) -> bool
    requires chamber { IsShortCone k (cone_of_chamber (chamber_of chamber.now)) }
    requires w { IsShort k w.now }
    ensures { IsTrue result ↔ InCone k chamber.now.rays.items w.now }
{
    for f in &chamber.facets {
        if product(k, &f.normal, w) < 0 {
            return false;
        }
    }
    true
}

/// The numbers, from 1, of the chambers that hold a vector, ascending.
pub(crate) fn chambers_around(
    alloc: Global,
    k: usize,
    chambers: &[ListedChamber],
    w: &IVec,
) -> Result<Vec<u32>, NoMemory>
    requires few { length chambers.now < 2 ^ 32 }
    requires chambers { All (IsShortCone k) (map cone_of_chamber (map chamber_of chambers.now)) }
    requires w { IsShort k w.now }
    ensures { IfOk result (λ v. AreNumbersOf (IsListedAround k (map chamber_of chambers.now) w.now) v.items) }
{
    let mut out = Vec::new(alloc);
    for i in 0..chambers.len() {
        if holds(k, &chambers[i], w) {
            add(&mut out, i as u32 + 1)?;
        }
    }
    Ok(out)
}
