//! Free certificates.
ghost use Rattle.std.specs.Prelude.{◌≡◌, ◌≤◌, ◌<◌, ◌+◌, ◌^◌, ◌↔◌, ℕ, IfOk, IsTrue, IfSome, IfNone, All, length};
ghost use Rattle.git_algebra.specs.Operations.{restricted};
ghost use Rattle.git_ideals.specs.Division.{DividesToZero, PairsDivide};
ghost use Rattle.git_facecert.specs.Certificates.{IsMember};
ghost use Rattle.git_facecert.specs.Answers.{FirstLacks, PairDivides, FirstPairLacks, FirstPartner, IsFreeAnswer};

use crate::certificate::{Accepted, CERT_DEGREE, Place};
use crate::face::clearing_of;
use git_base::NoMemory;
use git_mono::Mono;
use git_poly::{Poly, PolyFault};
use git_reduce::{divides_to_zero, s_poly};
use std::alloc::Global;

/// Whether a polynomial is other than 0, in the face's variables and the extra variable, of total degree at most 2^25,
/// and has a lead other than 1.
fn is_member(mask: u16, g: &Poly) -> bool
    ensures { IsTrue result ↔ IsMember mask g.now }
{
    let Some(lead) = g.lead() else {
        return false;
    };
    if lead.0 == Mono::one() {
        return false;
    }
    g.is_in_face(u32::from(mask) + 65536) && g.total_degree() <= CERT_DEGREE
}

/// The number, from 1, of the first that is no member.
fn first_other(mask: u16, members: &[Poly]) -> Option<u32>
    requires { length members.now < 2 ^ 32 }
    ensures none { IfNone result (All (IsMember mask) members.now) }
    ensures some { IfSome result (λ n. FirstLacks (IsMember mask) members.now n) }
{
    for (i, g) in members.iter().enumerate() {
        if !is_member(mask, g) {
            return Some(i as u32 + 1);
        }
    }
    None
}

/// The number, from 1, of the first generator that, restricted, does not divide to rest 0.
fn first_generator(
    alloc: Global,
    mask: u16,
    generators: &[Poly],
    members: &[Poly],
) -> Result<Option<u32>, NoMemory>
    requires few { length generators.now < 2 ^ 32 }
    requires members { All (IsMember mask) members.now }
    ensures none { IfOk result (λ o. IfNone o (All (λ f. DividesToZero members.now (restricted mask f)) generators.now)) }
    ensures some { IfOk result (λ o. IfSome o (λ n. FirstLacks (λ f. DividesToZero members.now (restricted mask f)) generators.now n)) }
{
    for (i, f) in generators.iter().enumerate() {
        let restricted = f.restrict(alloc, mask)?;
        if !divides_to_zero(alloc, &restricted, members)? {
            return Ok(Some(i as u32 + 1));
        }
    }
    Ok(None)
}

/// Whether the S-polynomial of two members divides to rest 0.
fn pair_divides(
    alloc: Global,
    mask: u16,
    members: &[Poly],
    i: usize,
    j: usize,
) -> Result<bool, NoMemory>
    requires members { All (IsMember mask) members.now }
    requires first { i < length members.now }
    requires second { j < length members.now }
    ensures { IfOk result (λ b. IsTrue b ↔ PairDivides members.now i j) }
{
    match s_poly(alloc, &members[i], &members[j]) {
        Ok(s) => divides_to_zero(alloc, &s, members),
        Err(PolyFault::NoMemory) => Err(NoMemory),
        Err(PolyFault::Degree) => unreachable!(),
    }
}

/// The first place after `i` with which the pair's S-polynomial does not divide to rest 0.
fn first_partner(
    alloc: Global,
    mask: u16,
    members: &[Poly],
    i: usize,
) -> Result<Option<usize>, NoMemory>
    requires members { All (IsMember mask) members.now }
    requires within { i < length members.now }
    ensures none { IfOk result (λ o. IfNone o ((l : ℕ) → i < l → l < length members.now → PairDivides members.now i l)) }
    ensures some { IfOk result (λ o. IfSome o (λ j. FirstPartner members.now i j)) }
{
    for j in i + 1..members.len() {
        if !pair_divides(alloc, mask, members, i, j)? {
            return Ok(Some(j));
        }
    }
    Ok(None)
}

/// The numbers, from 1, of the first pair whose S-polynomial does not divide to rest 0.
fn first_pair(alloc: Global, mask: u16, members: &[Poly]) -> Result<Option<(u32, u32)>, NoMemory>
    requires members { All (IsMember mask) members.now }
    requires few { length members.now < 2 ^ 32 }
    ensures none { IfOk result (λ o. IfNone o (PairsDivide members.now)) }
    ensures some { IfOk result (λ o. IfSome o (λ pair. FirstPairLacks members.now pair.0 pair.1)) }
{
    for i in 0..members.len() {
        if let Some(j) = first_partner(alloc, mask, members, i)? {
            return Ok(Some((i as u32 + 1, j as u32 + 1)));
        }
    }
    Ok(None)
}

/// Whether a free certificate is accepted, or where it fails first.
pub(crate) fn accept_free(
    alloc: Global,
    generators: &[Poly],
    mask: u16,
    members: &[Poly],
) -> Result<Accepted, NoMemory>
    requires few { length members.now < 2 ^ 32 }
    requires few_generators { length generators.now < 2 ^ 32 }
    ensures { IfOk result (λ a. IsFreeAnswer generators.now mask members.now a) }
{
    if let Some(number) = first_other(mask, members) {
        return Ok(Accepted::No(Place::Member(number)));
    }
    if let Some(number) = first_generator(alloc, mask, generators, members)? {
        return Ok(Accepted::No(Place::Generator(number)));
    }
    let clearing = clearing_of(alloc, mask)?;
    if !divides_to_zero(alloc, &clearing, members)? {
        return Ok(Accepted::No(Place::Clear));
    }
    if let Some(pair) = first_pair(alloc, mask, members)? {
        return Ok(Accepted::No(Place::Pair(pair.0, pair.1)));
    }
    Ok(Accepted::Yes)
}
