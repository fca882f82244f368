//! Where weights lie.
ghost use Rattle.std.specs.Prelude.{◌≡◌, ◌<◌, ◌≤◌, ◌^◌, [], ◌∷◌, All, IfOk, IfErr, length};
ghost use Rattle.git_defs.specs.Cones.{AreRays};
ghost use Rattle.git_orbit.specs.Signatures.{InChamber, IsSignature, cone_in};
ghost use Rattle.git_chamber.specs.Chambers.{IsNarrow, IsNumbers, IsWideSignature};
ghost use Rattle.git_listing.specs.Views.{listing_of};
ghost use Rattle.git_allcones.specs.Cones.{AreShortCones, cones_of};
ghost use Rattle.git_stages.specs.Ranks.{IsRank};
ghost use Rattle.git_stages.specs.Short.{IsShort};
ghost use Rattle.git_locate.specs.Positions.{IsPlace};
ghost use Rattle.git_locate.specs.Views.{IsCommonFault, IsLocateFault, place_of};

use crate::around::{chambers_around, first_below, numbers_of};
use crate::located::{LocateFault, Located};
use git_base::NoMemory;
use git_chamber::{facets_of, walls};
use git_dd::{StageFault, full_rays};
use git_ints::IVec;
use git_listing::Listing;
use git_machine::Sig;
use git_orbit::{Cones, OrbitCone};
use git_rank::rank;
use std::alloc::Global;

/// The extreme vectors of what the cones of a signature have in common.
fn common_rays(alloc: Global, cones: &Cones, sig: &Sig) -> Result<Vec<IVec>, LocateFault>
    requires { IsNumbers cones.now sig.now }
    ensures rays { IfOk result (λ v. AreRays cones.now.k (InChamber cones.now sig.now) v.items) }
    ensures short { IfOk result (λ v. All (IsShort cones.now.k) v.items) }
    ensures narrow { IfOk result (λ _. IsNarrow cones.now sig.now) }
    ensures fault { IfErr result (λ f. IsCommonFault cones.now sig.now f) }
{
    let Ok(inequalities) = walls(alloc, cones, sig) else {
        return Err(LocateFault::NoMemory);
    };
    match full_rays(alloc, cones.k, &inequalities) {
        Ok(found) => Ok(found),
        Err(StageFault::Wide(at)) => Err(LocateFault::Wide(at)),
        Err(StageFault::NoMemory) => Err(LocateFault::NoMemory),
    }
}

/// The number of the cones.
fn cone_count(cones: &Cones) -> u32
    ensures { result ≡ length cones.now.list }
{
    let list: &[OrbitCone] = &cones.list;
    list.len() as u32
}

/// The dimension of the cone with these extreme vectors.
fn dimension_of(alloc: Global, k: usize, rays: &[IVec]) -> Result<u32, NoMemory>
    requires six { k ≤ 6 }
    requires short { All (IsShort k) rays.now }
    ensures { IfOk result (λ n. IsRank k rays.now n) }
{
    let n = rank(alloc, k, rays)?;
    Ok(n as u32)
}

/// The position of a weight, from its signature and the extreme vectors of what the cones of it have in common.
fn position(
    alloc: Global,
    cones: &Cones,
    listing: &Listing,
    w: &IVec,
    sig: &Sig,
    rays: Vec<IVec>,
) -> Result<Located, NoMemory>
    requires few { length listing.now.chambers.items < 2 ^ 32 }
    requires listing { AreShortCones cones.now.k (cones_of (listing_of listing.now)) }
    requires weight { IsShort cones.now.k w.now }
    requires within { cone_in cones.now 0 w.now }
    requires signature { IsSignature cones.now (w.now ∷ []) sig.now }
    requires rays { AreRays cones.now.k (InChamber cones.now sig.now) rays.items }
    requires short { All (IsShort cones.now.k) rays.items }
    requires narrow { IsNarrow cones.now sig.now }
    ensures { IfOk result (λ p. IsPlace cones.now (listing_of listing.now) w.now (place_of p)) }
{
    let around = numbers_of(alloc, sig, cone_count(cones))?;
    let dimension = dimension_of(alloc, cones.k, &rays)?;
    let chambers = chambers_around(alloc, cones.k, &listing.chambers, w)?;
    Ok(Located::At {
        cones: around,
        rays,
        dimension,
        chambers,
    })
}

/// Where a weight lies that the weight cone holds.
fn within(alloc: Global, cones: &Cones, listing: &Listing, w: &IVec) -> Result<Located, LocateFault>
    requires some { 0 < length cones.now.list }
    requires few { length listing.now.chambers.items < 2 ^ 32 }
    requires listing { AreShortCones cones.now.k (cones_of (listing_of listing.now)) }
    requires weight { IsShort cones.now.k w.now }
    requires within { cone_in cones.now 0 w.now }
    ensures place { IfOk result (λ p. IsPlace cones.now (listing_of listing.now) w.now (place_of p)) }
    ensures fault { IfErr result (λ f. IsLocateFault cones.now w.now f) }
{
    let Ok(sig) = cones.signature_of_weight(alloc, w) else {
        return Err(LocateFault::NoMemory);
    };
    let rays = common_rays(alloc, cones, &sig)?;
    let Ok(place) = position(alloc, cones, listing, w, &sig, rays) else {
        return Err(LocateFault::NoMemory);
    };
    Ok(place)
}

/// Where a weight lies: outside of cone 0, the weight cone, with the first of its facets that is negative there; or in
/// it, with the numbers of the cones and of the listed chambers that hold it, ascending, and the extreme vectors and
/// the dimension of what these cones have in common.
///
/// There is a cone. The weight has `k` entries, of at most 2^40 in absolute value. The listing has fewer than 2^32
/// chambers, and each has the rays and the facets of one cone with `k` independent rays, with entries of at most 2^40.
///
/// # Errors
///
/// - `Wide`: cone 0 holds the weight, and the sorted distinct facets of the cones that hold it are wide.
/// - `NoMemory`: memory ran out.
pub fn locate(
    alloc: Global,
    cones: &Cones,
    listing: &Listing,
    w: &IVec,
) -> Result<Located, LocateFault>
    requires some { 0 < length cones.now.list }
    requires few { length listing.now.chambers.items < 2 ^ 32 }
    requires listing { AreShortCones cones.now.k (cones_of (listing_of listing.now)) }
    requires weight { IsShort cones.now.k w.now }
    ensures place { IfOk result (λ p. IsPlace cones.now (listing_of listing.now) w.now (place_of p)) }
    ensures fault { IfErr result (λ f. IsLocateFault cones.now w.now f) }
{
    match first_below(cones.k, facets_of(cones, 0), w) {
        Some(n) => Ok(Located::Outside(n)),
        None => within(alloc, cones, listing, w),
    }
}
