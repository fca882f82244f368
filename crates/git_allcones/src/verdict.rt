//! Whether the chambers of a listing form a fan.
ghost use Rattle.std.specs.Prelude.{◌≡◌, ◌↔◌, ◌<◌, ◌^◌, IfOk, IfErr, IsTrue, length, map};
ghost use Rattle.git_listing.specs.Views.{listing_of};
ghost use Rattle.git_allcones.specs.Cones.{AreShortCones, cone_at, cone_of, cones_of};
ghost use Rattle.git_allcones.specs.Verdicts.{IsPairFault, IsRow, IsRowAnswer, IsVerdict, IsVerdictFault, PairIsNarrow, PairMeets};

use crate::cones::{ListedCone, listed_cones};
use crate::meeting::meet_in_faces;
use git_dd::StageFault;
use git_listing::Listing;
use git_stages::WideAt;
use std::alloc::Global;

/// Whether the chambers form a fan: whether each two of them meet in a face of both.
#[derive(Clone, Copy, Debug, PartialEq, Eq)]
pub enum FanVerdict {
    /// They do.
    Yes,
    /// The chambers with these numbers, from 1, are the first pair that doesn't meet so.
    No { first: u32, second: u32 },
}

/// Why there is no verdict.
#[derive(Clone, Copy, Debug, PartialEq, Eq)]
pub enum VerdictFault {
    /// The facets of the chambers with these numbers are together wide.
    Wide { first: u32, second: u32, at: WideAt },
    /// Memory ran out.
    NoMemory,
}

/// More facets than this of one cone are not tried: they would not fit into memory.
const FACETS: usize = 1 << 31;

/// Whether the cones at two places meet in a face of both.
fn pair_meets(
    alloc: Global,
    k: usize,
    cones: &[ListedCone],
    i: usize,
    j: usize,
) -> Result<bool, VerdictFault>
    requires cones { AreShortCones k (map cone_of cones.now) }
    requires few { length cones.now < 2 ^ 32 }
    requires first { i < length cones.now }
    requires second { j < length cones.now }
    ensures exact { IfOk result (λ b. IsTrue b ↔ PairMeets k (cone_at (map cone_of cones.now) i) (cone_at (map cone_of cones.now) j)) }
    ensures narrow { IfOk result (λ b. PairIsNarrow k (cone_at (map cone_of cones.now) i) (cone_at (map cone_of cones.now) j)) }
    ensures fault { IfErr result (λ f. IsPairFault k (map cone_of cones.now) i j f) }
{
    let one = &cones[i];
    let other = &cones[j];
    if one.facets.len() >= FACETS {
        return Err(VerdictFault::NoMemory);
    }
    if other.facets.len() >= FACETS {
        return Err(VerdictFault::NoMemory);
    }
    match meet_in_faces(alloc, k, one, other) {
        Ok(meets) => Ok(meets),
        Err(StageFault::Wide(at)) => Err(VerdictFault::Wide {
            first: i as u32 + 1,
            second: j as u32 + 1,
            at,
        }),
        Err(StageFault::NoMemory) => Err(VerdictFault::NoMemory),
    }
}

/// The first later place at which a cone doesn't meet the one at place `i` in a face of both.
fn first_failure(
    alloc: Global,
    k: usize,
    cones: &[ListedCone],
    i: usize,
) -> Result<Option<usize>, VerdictFault>
    requires cones { AreShortCones k (map cone_of cones.now) }
    requires few { length cones.now < 2 ^ 32 }
    requires place { i < length cones.now }
    ensures row { IfOk result (λ o. IsRow k (map cone_of cones.now) i o) }
    ensures fault { IfErr result (λ f. IsRowAnswer k (map cone_of cones.now) i f) }
{
    for j in i + 1..cones.len() {
        match pair_meets(alloc, k, cones, i, j) {
            Err(fault) => {
                return Err(fault);
            }
            Ok(false) => {
                return Ok(Some(j));
            }
            Ok(true) => {}
        }
    }
    Ok(None)
}

/// The verdict on the cones.
fn verdict_of(alloc: Global, k: usize, cones: &[ListedCone]) -> Result<FanVerdict, VerdictFault>
    requires cones { AreShortCones k (map cone_of cones.now) }
    requires few { length cones.now < 2 ^ 32 }
    ensures verdict { IfOk result (λ v. IsVerdict k (map cone_of cones.now) v) }
    ensures fault { IfErr result (λ f. IsVerdictFault k (map cone_of cones.now) f) }
{
    for i in 0..cones.len() {
        match first_failure(alloc, k, cones, i) {
            Err(fault) => {
                return Err(fault);
            }
            Ok(Some(j)) => {
                return Ok(FanVerdict::No {
                    first: i as u32 + 1,
                    second: j as u32 + 1,
                });
            }
            Ok(None) => {}
        }
    }
    Ok(FanVerdict::Yes)
}

/// Whether the chambers of a listing of dimension `k` form a fan. Pairs of chambers are asked in the order
/// of their numbers; the first that is wide or doesn't meet in a face of both decides.
pub fn fan_verdict(alloc: Global, k: u32, listing: &Listing) -> Result<FanVerdict, VerdictFault>
    requires { AreShortCones k (cones_of (listing_of listing.now)) }
    ensures verdict { IfOk result (λ v. IsVerdict k (cones_of (listing_of listing.now)) v) }
    ensures fault { IfErr result (λ f. IsVerdictFault k (cones_of (listing_of listing.now)) f) }
{
    let Ok(cones) = listed_cones(alloc, listing) else {
        return Err(VerdictFault::NoMemory);
    };
    if cones.len() > u32::MAX as usize {
        return Err(VerdictFault::NoMemory);
    }
    verdict_of(alloc, k as usize, &cones)
}
