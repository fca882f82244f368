//! The full a-faces by the numbers of their cones.
ghost use Rattle.std.specs.Prelude.{◌≡◌, ◌↔◌, ◌≤◌, ◌<◌, ◌^◌, ℕ, All, Contains, IfOk, length};
ghost use Rattle.git_grading.specs.Gradings.{IsGrading};
ghost use Rattle.git_orbit.specs.Keys.{HasKey};
ghost use Rattle.git_orbit.specs.Orbits.{AreFaces};
ghost use Rattle.git_stages.specs.Short.{IsShort};
ghost use Rattle.git_bunch.specs.Stable.{family};
ghost use Rattle.git_bunch.specs.Groups.{AreGroups, IsGroupOf};

use crate::cones::{cone_at, cone_count};
use crate::keys::{Key, has_key, key_of};
use crate::masks::least_of;
use git_base::NoMemory;
use git_canon::Canon;
use git_grading::Grading;
use git_ints::IVec;
use git_orbit::Cones;
use git_stages::add;
use std::alloc::Global;

/// The faces with one cone, and the least of them: those within which no other of them lies.
#[derive(Drop)]
pub(crate) struct Group {
    pub all: Vec<u16>,
    pub least: Vec<u16>,
}

/// The masks with the key.
fn members(alloc: Global, key: &Key, free: &[u16]) -> Result<Vec<u16>, NoMemory>
    ensures { IfOk result (λ v. (m : ℕ) → Contains v.items m ↔ (Contains free.now m × HasKey key.now.held key.now.along.items m)) }
{
    let mut out = Vec::new(alloc);
    for mask in free {
        if has_key(key, *mask) {
            add(&mut out, *mask)?;
        }
    }
    Ok(out)
}

/// The faces with this cone.
fn group_of(
    alloc: Global,
    k: usize,
    columns: &[IVec],
    cone: &Canon,
    free: &[u16],
) -> Result<Group, NoMemory>
    requires entries { cone.now.k ≡ k }
    requires grading { IsGrading k columns.now }
    requires columns { All (IsShort k) columns.now }
    requires faces { AreFaces k columns.now free.now }
    ensures { IfOk result (λ g. IsGroupOf k columns.now free.now cone.now.facets g) }
{
    let key = key_of(alloc, k, cone, columns)?;
    let all = members(alloc, &key, free)?;
    let least = least_of(alloc, &all)?;
    Ok(Group { all, least })
}

/// For each cone the faces with it.
pub(crate) fn grouped(
    alloc: Global,
    cones: &Cones,
    g: &Grading,
    free: &[u16],
) -> Result<Vec<Group>, NoMemory>
    requires entries { cones.now.k ≡ g.now.k }
    requires faces { AreFaces g.now.k g.now.columns free.now }
    ensures groups { IfOk result (λ v. AreGroups (family cones.now g.now.columns free.now) v.items) }
    ensures few { IfOk result (λ v. length v.items < 2 ^ 32) }
{
    let mut out = Vec::new(alloc);
    for i in 0..cone_count(cones) {
        let group = group_of(alloc, g.k(), g.columns(), cone_at(cones, i), free)?;
        add(&mut out, group)?;
    }
    Ok(out)
}
