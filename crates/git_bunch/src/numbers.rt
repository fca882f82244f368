//! The number of a face's cone.
ghost use Rattle.std.specs.Prelude.{◌≡◌, ◌↔◌, ◌≤◌, ◌<◌, ◌^◌, All, IsTrue, length};
ghost use Rattle.git_defs.specs.Cones.{Cut, SameSet};
ghost use Rattle.git_defs.specs.Faces.{face_cone};
ghost use Rattle.git_grading.specs.Gradings.{IsGrading};
ghost use Rattle.git_stages.specs.Short.{IsShort};
ghost use Rattle.git_bunch.specs.Keys.{MeetsRays};
ghost use Rattle.git_bunch.specs.Stable.{IsNumberIfAny};

use crate::cones::{cone_at, cone_count};
use crate::keys::{columns_along, columns_in};
use git_canon::Canon;
use git_grading::Grading;
use git_ints::IVec;
use git_orbit::Cones;

/// Whether each ray has a column of the face along it.
fn meets_rays(k: usize, columns: &[IVec], rays: &[IVec], mask: u16) -> bool
    requires columns { All (IsShort k) columns.now }
    requires few { length columns.now ≤ 16 }
    ensures { IsTrue result ↔ MeetsRays columns.now rays.now mask }
{
    for ray in rays {
        if mask & columns_along(k, columns, ray) == 0 {
            return false;
        }
    }
    true
}

/// Whether the columns of the face generate the cone.
fn has_cone(k: usize, columns: &[IVec], cone: &Canon, mask: u16) -> bool
    requires entries { cone.now.k ≡ k }
    requires grading { IsGrading k columns.now }
    requires columns { All (IsShort k) columns.now }
    requires mask { mask < 2 ^ length columns.now }
    ensures { IsTrue result ↔ SameSet (Cut k cone.now.facets) (face_cone k columns.now mask) }
{
    if mask & columns_in(k, cone, columns) != mask {
        return false;
    }
    meets_rays(k, columns, &cone.rays, mask)
}

/// The number, from 0, of the cone that the columns of a face generate, or None where this cone is not in the list.
///
/// Bit `i` of the mask stands for column `i`, and no bit past the columns is set. The vectors of the cones have as many
/// entries as the grading has rows.
pub fn number_of(cones: &Cones, g: &Grading, mask: u16) -> Option<u32>
    requires entries { cones.now.k ≡ g.now.k }
    requires mask { mask < 2 ^ length g.now.columns }
    ensures { IsNumberIfAny cones.now g.now.columns mask result }
{
    let k = g.k();
    let columns = g.columns();
    for i in 0..cone_count(cones) {
        if has_cone(k, columns, cone_at(cones, i), mask) {
            return Some(i as u32);
        }
    }
    None
}
