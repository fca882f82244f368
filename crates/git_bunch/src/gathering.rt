//! The faces whose cones are in sets of cones.
ghost use Rattle.std.specs.Prelude.{◌≡◌, ◌↔◌, ◌<◌, ◌^◌, ◌++◌, IfOk, IsTrue, length};
ghost use Rattle.git_machine.specs.Signatures.{Has};
ghost use Rattle.git_bunch.specs.Stable.{AreDescending, Family, IsFamily, Minimal, Wall};
ghost use Rattle.git_bunch.specs.Groups.{AreGroups, IsOnly};

use crate::groups::Group;
use crate::masks::{falling, least_of};
use git_base::NoMemory;
use git_machine::Sig;
use std::alloc::Global;

/// More masks.
fn extend(out: &mut Vec<u16>, more: &[u16]) -> Result<(), NoMemory>
    ensures { IfOk result (λ _. out.new.items ≡ out.old.items ++ more.now) }
{
    if out.extend_from_slice(more).is_err() {
        return Err(NoMemory);
    }
    Ok(())
}

/// Whether the first set has the number and the others don't.
fn is_only(on: &Sig, one: &Sig, two: &Sig, n: u32) -> bool
    ensures { IsTrue result ↔ IsOnly on.now one.now two.now n }
{
    on.has(n) && !one.has(n) && !two.has(n)
}

/// The faces that are stable for the first set and for neither of the others, from the greatest down.
pub(crate) fn only_on(
    alloc: Global,
    groups: &[Group],
    on: &Sig,
    one: &Sig,
    two: &Sig,
) -> Result<Vec<u16>, NoMemory>
    requires { length groups.now < 2 ^ 32 }
    ensures { IfOk result (λ v. (F : Family) → IsFamily F → AreGroups F groups.now → AreDescending (Wall F one.now two.now on.now) v.items) }
{
    let mut all = Vec::new(alloc);
    for i in 0..groups.len() {
        if is_only(on, one, two, i as u32) {
            extend(&mut all, &groups[i].all)?;
        }
    }
    Ok(falling(all))
}

/// The minimal ones of the faces that are stable for a set, from the greatest down.
pub(crate) fn minimal_of(alloc: Global, groups: &[Group], set: &Sig) -> Result<Vec<u16>, NoMemory>
    requires { length groups.now < 2 ^ 32 }
    ensures { IfOk result (λ v. (F : Family) → AreGroups F groups.now → AreDescending (Minimal F set.now) v.items) }
{
    let mut all = Vec::new(alloc);
    for i in 0..groups.len() {
        if set.has(i as u32) {
            extend(&mut all, &groups[i].least)?;
        }
    }
    let least = least_of(alloc, &all)?;
    Ok(least)
}
