//! Whether a cone holds a vector, and whether two lists are the same.
ghost use Rattle.std.specs.Prelude.{◌≡◌, ◌↔◌, ◌≤ℤ◌, ◌^◌, pos, All, IsTrue, length};
ghost use Rattle.git_defs.specs.Vectors.{dot};
ghost use Rattle.git_defs.specs.Cones.{Cut};
ghost use Rattle.git_ints.specs.Padded.{AreWithin};
ghost use Rattle.git_stages.specs.Short.{IsShort};

use git_ints::IVec;
use git_stages::is_same;

/// Whether a normal isn't negative at a vector.
fn is_beside(k: usize, n: &IVec, x: &IVec) -> bool
    requires n { IsShort k n.now }
    requires x { length x.now ≡ k }
    requires within { AreWithin (2 ^ 80) x.now }
    ensures { IsTrue result ↔ (pos 0 ≤ℤ dot n.now x.now) }
{
    let _ = k;
    n.dot(x) >= 0
}

/// Whether the cone that the facets cut out holds a vector.
pub fn is_inside(k: usize, facets: &[IVec], x: &IVec) -> bool
    requires facets { All (IsShort k) facets.now }
    requires x { length x.now ≡ k }
    requires within { AreWithin (2 ^ 80) x.now }
    ensures { IsTrue result ↔ Cut k facets.now x.now }
{
    for n in facets {
        if !is_beside(k, n, x) {
            return false;
        }
    }
    true
}

/// Whether two lists have the same vectors in the same order.
pub fn are_same(us: &[IVec], vs: &[IVec]) -> bool
    ensures { IsTrue result ↔ (us.now ≡ vs.now) }
{
    if us.len() != vs.len() {
        return false;
    }
    for i in 0..us.len() {
        if !is_same(&us[i], &vs[i]) {
            return false;
        }
    }
    true
}
