//! The cones of a list by their numbers.
ghost use Rattle.std.specs.Prelude.{◌≡◌, ◌<◌, length};
ghost use Rattle.git_orbit.specs.Signatures.{facets_at};

use git_canon::Canon;
use git_orbit::{Cones, OrbitCone};

/// How many cones there are.
pub(crate) fn cone_count(cones: &Cones) -> usize
    ensures value { result ≡ length cones.now.list }
    ensures few { result < 65536 }
{
    let list: &[OrbitCone] = &cones.list;
    list.len()
}

/// The cone with number `i`, from 0.
pub(crate) fn cone_at(cones: &Cones, i: usize) -> &Canon
    requires { i < length cones.now.list }
    ensures entries { result.now.k ≡ cones.now.k }
    ensures facets { result.now.facets ≡ facets_at cones.now i }
{
    &cones.list[i].canon
}
