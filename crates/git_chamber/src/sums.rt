//! Sums of vectors.
ghost use Rattle.std.specs.Prelude.{◌≡◌, ◌≤◌, ◌^◌, length, All};
ghost use Rattle.git_defs.specs.Vectors.{vector_sum, zero_vector};
ghost use Rattle.git_ints.specs.Padded.{AreWithin};
ghost use Rattle.git_stages.specs.Short.{IsShort};
ghost use Rattle.git_cone_faces.specs.Faces.{on_wall};

use git_ints::IVec;
use git_stages::is_level;

/// The vector 0 of `k` entries.
fn zero(k: usize) -> IVec
    requires some { 1 ≤ k }
    requires six { k ≤ 6 }
    ensures { result ≡ zero_vector k }
{
    IVec::of(&[0i128; 6][..k])
}

/// The sum of the vectors.
pub fn sum(k: usize, vs: &[IVec]) -> IVec
    requires some { 1 ≤ k }
    requires six { k ≤ 6 }
    requires short { All (IsShort k) vs.now }
    requires few { length vs.now ≤ 65536 }
    ensures value { result ≡ vector_sum k vs.now }
    ensures entries { length result ≡ k }
    ensures within { AreWithin (2 ^ 80) result }
{
    let mut total = zero(k);
    for j in 0..vs.len() {
        total = vs[vs.len() - 1 - j].plus(&total);
    }
    total
}

/// The sum of the vectors at which the normal is 0.
pub fn wall_sum(k: usize, normal: &IVec, vs: &[IVec]) -> IVec
    requires some { 1 ≤ k }
    requires six { k ≤ 6 }
    requires normal { IsShort k normal.now }
    requires short { All (IsShort k) vs.now }
    requires few { length vs.now ≤ 65536 }
    ensures value { result ≡ vector_sum k (on_wall normal.now vs.now) }
    ensures entries { length result ≡ k }
    ensures within { AreWithin (2 ^ 80) result }
{
    let mut total = zero(k);
    for j in 0..vs.len() {
        let v = vs[vs.len() - 1 - j];
        if is_level(k, normal, &v) {
            total = v.plus(&total);
        }
    }
    total
}
