//! The first germ, and the germs that go through walls.
ghost use Rattle.std.specs.Prelude.{◌≡◌, ◌≤◌, ◌^◌, ◌++◌, ◌∷◌, length, All};
ghost use Rattle.git_defs.specs.Vectors.{AllOfLength, units, vector_sum};
ghost use Rattle.git_ints.specs.Padded.{AreWithin};
ghost use Rattle.git_stages.specs.Short.{IsShort};
ghost use Rattle.git_chamber.specs.Chambers.{crossing, first_germ};

use crate::sums::{sum, wall_sum};
use git_grading::Grading;
use git_ints::IVec;
use git_orbit::Germ;
use git_stages::negated;

/// The vectors, then the unit vectors of `k` entries.
fn with_units(k: usize, front: &[IVec]) -> Germ
    requires some { 1 ≤ k }
    requires six { k ≤ 6 }
    requires one { 1 ≤ length front.now }
    requires two { length front.now ≤ 2 }
    requires lengths { AllOfLength k front.now }
    requires within { All (AreWithin (2 ^ 80)) front.now }
    ensures value { result ≡ front.now ++ units k }
    ensures lengths { AllOfLength k result }
{
    let mut all = [front[0]; 8];
    all[..front.len()].copy_from_slice(front);
    for i in 0..k {
        all[front.len() + i] = IVec::unit(k, i);
    }
    Germ::of(&all[..front.len() + k])
}

/// The germ that goes through a wall of a chamber with these rays.
pub fn crossing_germ(k: usize, rays: &[IVec], normal: &IVec) -> Germ
    requires some { 1 ≤ k }
    requires six { k ≤ 6 }
    requires rays { All (IsShort k) rays.now }
    requires few { length rays.now ≤ 65536 }
    requires normal { IsShort k normal.now }
    ensures value { result ≡ crossing k rays.now normal.now }
    ensures lengths { AllOfLength k result }
{
    with_units(k, &[wall_sum(k, normal, rays), negated(k, normal)])
}

/// The vector, then the unit vectors.
pub fn weight_germ(k: usize, w: &IVec) -> Germ
    requires some { 1 ≤ k }
    requires six { k ≤ 6 }
    requires entries { length w.now ≡ k }
    requires within { AreWithin (2 ^ 80) w.now }
    ensures value { result ≡ w.now ∷ units k }
    ensures lengths { AllOfLength k result }
{
    with_units(k, &[*w])
}

/// The sum of the columns.
pub fn column_sum(g: &Grading) -> IVec
    ensures value { result ≡ vector_sum g.now.k g.now.columns }
    ensures entries { length result ≡ g.now.k }
    ensures within { AreWithin (2 ^ 80) result }
{
    sum(g.k(), g.columns())
}

/// The germ with which all begins: the sum of the columns, then the unit vectors.
pub fn first_germ(g: &Grading) -> Germ
    ensures { result ≡ first_germ g.now.k g.now.columns }
{
    weight_germ(g.k(), &column_sum(g))
}
