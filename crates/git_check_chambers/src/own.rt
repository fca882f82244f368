//! What is asked of a chamber by itself.
ghost use Rattle.std.specs.Prelude.{◌≡◌, ◌↔◌, ◌<◌, ◌≤◌, ℕ, IfOk, IsTrue, All, length};
ghost use Rattle.git_defs.specs.Vectors.{HasRank};
ghost use Rattle.git_stages.specs.Short.{IsShort};
ghost use Rattle.git_stages.specs.declared.wide.WideAt.{WideAt};
ghost use Rattle.git_machine.specs.Signatures.{Has, Signature};
ghost use Rattle.git_orbit.specs.Orbits.{Fan};
ghost use Rattle.git_orbit.specs.Signatures.{IsHolding};
ghost use Rattle.git_chamber.specs.Chambers.{IsCell, IsNarrow, IsNumbers, IsWideSignature};
ghost use Rattle.git_chamber.specs.declared.cell.Cell.TheVariants.{Good};
ghost use Rattle.git_listing.specs.Views.{chamber_of};
ghost use Rattle.git_check_chambers.specs.Families.{IsFirstReason};
ghost use Rattle.git_check_chambers.specs.Judged.{AsksOwn, IsSizedChamber};

use crate::walls::{are_same, normals};
use git_asked::Reason;
use git_base::NoMemory;
use git_chamber::{Chamber, ChamberFault, chamber, walls};
use git_dd::{StageFault, full_rays};
use git_ints::IVec;
use git_listing::ListedChamber;
use git_machine::Sig;
use git_orbit::{Cones, OrbitCone};
use git_rank::rank;
use git_stages::is_same;
use std::alloc::Global;

/// The number of cones.
pub(crate) fn count(cones: &Cones) -> u32
    ensures { result ≡ length cones.now.list }
{
    let list: &[OrbitCone] = &cones.list;
    list.len() as u32
}

/// Whether a set of numbers of cones has one.
fn has_member(cones: &Cones, sig: &Sig) -> bool
    requires { (n : ℕ) → Has sig.now n → n < length cones.now.list }
    ensures { IsTrue result ↔ ((n : ℕ) × Has sig.now n) }
{
    for n in 0..count(cones) {
        if sig.has(n) {
            return true;
        }
    }
    false
}

/// Whether `k` of the vectors are independent.
fn have_rank(alloc: Global, k: usize, vs: &[IVec]) -> Result<bool, NoMemory>
    requires six { k ≤ 6 }
    requires short { All (IsShort k) vs.now }
    ensures { IfOk result (λ b. IsTrue b ↔ HasRank k vs.now) }
{
    let count = rank(alloc, k, vs)?;
    Ok(count >= k)
}

/// Whether the facets of the cones of a set are wide.
fn is_wide(alloc: Global, cones: &Cones, sig: &Sig) -> Result<bool, NoMemory>
    requires { IsNumbers cones.now sig.now }
    ensures wide { IfOk result (λ b. IsTrue b → ((at : WideAt) × IsWideSignature cones.now sig.now at)) }
    ensures narrow { IfOk result (λ b. (IsTrue b → ⊥) → IsNarrow cones.now sig.now) }
{
    let walls = walls(alloc, cones, sig)?;
    match full_rays(alloc, cones.k, &walls) {
        Ok(_) => Ok(false),
        Err(StageFault::Wide(_)) => Ok(true),
        Err(StageFault::NoMemory) => Err(NoMemory),
    }
}

/// The first reason of a printed chamber beside the true one of the set of cones that hold its rays.
fn compared(alloc: Global, c: &ListedChamber, own: &Chamber) -> Result<Option<Reason>, NoMemory>
    ensures { IfOk result (λ o. (fan : Fan) (s : Signature) → IsHolding fan c.now.rays.items s → ((n : ℕ) × Has s n) → HasRank fan.k c.now.rays.items → IsCell fan s (Good own.now) → IsFirstReason (AsksOwn fan (chamber_of c.now)) o) }
{
    if !are_same(&c.rays, &own.rays) {
        return Ok(Some(Reason::Rays));
    }
    if !is_same(&c.weight, &own.weight) {
        return Ok(Some(Reason::Weight));
    }
    if c.crossed != own.crossed {
        return Ok(Some(Reason::Mark));
    }
    let normals = normals(alloc, &c.facets)?;
    if !are_same(&normals, &own.facets) {
        return Ok(Some(Reason::FacetSet));
    }
    Ok(None)
}

/// The first reason of a chamber whose rays have full rank.
fn of_full(
    alloc: Global,
    cones: &Cones,
    c: &ListedChamber,
    sig: &Sig,
) -> Result<Option<Reason>, NoMemory>
    requires holding { IsHolding cones.now c.now.rays.items sig.now }
    requires rank { HasRank cones.now.k c.now.rays.items }
    requires member { (n : ℕ) × Has sig.now n }
    ensures { IfOk result (λ o. IsFirstReason (AsksOwn cones.now (chamber_of c.now)) o) }
{
    match chamber(alloc, cones, sig) {
        Ok(own) => compared(alloc, c, &own),
        Err(ChamberFault::Wide(_)) => Ok(Some(Reason::WideChamber)),
        Err(ChamberFault::NoMemory) => Err(NoMemory),
    }
}

/// The first reason of a chamber whose rays have no full rank.
fn of_flat(
    alloc: Global,
    cones: &Cones,
    c: &ListedChamber,
    sig: &Sig,
) -> Result<Option<Reason>, NoMemory>
    requires holding { IsHolding cones.now c.now.rays.items sig.now }
    requires rank { HasRank cones.now.k c.now.rays.items → ⊥ }
    requires member { (n : ℕ) × Has sig.now n }
    ensures { IfOk result (λ o. IsFirstReason (AsksOwn cones.now (chamber_of c.now)) o) }
{
    if is_wide(alloc, cones, sig)? {
        return Ok(Some(Reason::WideChamber));
    }
    Ok(Some(Reason::Rays))
}

/// The first reason of a chamber by itself: that the facets of the cones that hold its rays are wide, that
/// its rays, its weight or its mark aren't those of their intersection, or that its normals aren't.
pub(crate) fn own_reason(
    alloc: Global,
    cones: &Cones,
    c: &ListedChamber,
    sig: &Sig,
) -> Result<Option<Reason>, NoMemory>
    requires sized { IsSizedChamber cones.now.k (chamber_of c.now) }
    requires holding { IsHolding cones.now c.now.rays.items sig.now }
    ensures { IfOk result (λ o. IsFirstReason (AsksOwn cones.now (chamber_of c.now)) o) }
{
    if !has_member(cones, sig) {
        return Ok(Some(Reason::Rays));
    }
    if have_rank(alloc, cones.k, &c.rays)? {
        return of_full(alloc, cones, c, sig);
    }
    of_flat(alloc, cones, c, sig)
}
