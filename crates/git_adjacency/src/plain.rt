//! Neighbours by their definition, with products in place of marks.
ghost use Rattle.std.specs.Prelude.{◌≡◌, ◌↔◌, ◌⊎◌, pos, All, IsTrue};
ghost use Rattle.git_defs.specs.Vectors.{dot};
ghost use Rattle.git_geometry.specs.Zeros.{Flat, Adjacent, ZeroOnBoth};
ghost use Rattle.git_stages.specs.Short.{IsShort};

use git_ints::IVec;
use git_stages::{is_level, is_same};

/// Whether the inequality is 0 on the third vector, or not on both others.
fn keeps_zero(k: usize, a: &IVec, r: &IVec, s: &IVec, t: &IVec) -> bool
    requires a { IsShort k a.now }
    requires r { IsShort k r.now }
    requires s { IsShort k s.now }
    requires t { IsShort k t.now }
    ensures { IsTrue result ↔ (ZeroOnBoth r.now s.now a.now → dot a.now t.now ≡ pos 0) }
{
    !is_level(k, a, r) || !is_level(k, a, s) || is_level(k, a, t)
}

/// Whether the third vector is 0 wherever both others are.
fn keeps_zeros(k: usize, inequalities: &[IVec], r: &IVec, s: &IVec, t: &IVec) -> bool
    requires inequalities { All (IsShort k) inequalities.now }
    requires r { IsShort k r.now }
    requires s { IsShort k s.now }
    requires t { IsShort k t.now }
    ensures { IsTrue result ↔ Flat (ZeroOnBoth r.now s.now) inequalities.now t.now }
{
    for a in inequalities {
        if !keeps_zero(k, a, r, s, t) {
            return false;
        }
    }
    true
}

/// Whether the third vector is one of the others, or lacks a zero that both have.
fn is_apart(k: usize, inequalities: &[IVec], r: &IVec, s: &IVec, t: &IVec) -> bool
    requires inequalities { All (IsShort k) inequalities.now }
    requires r { IsShort k r.now }
    requires s { IsShort k s.now }
    requires t { IsShort k t.now }
    ensures { IsTrue result ↔ (Flat (ZeroOnBoth r.now s.now) inequalities.now t.now → (r.now ≡ t.now) ⊎ (s.now ≡ t.now)) }
{
    !keeps_zeros(k, inequalities, r, s, t) || is_same(r, t) || is_same(s, t)
}

/// Whether two vectors are neighbours in a list: no third one is 0 wherever both are. Each test takes
/// products with all inequalities.
pub fn are_adjacent(k: usize, inequalities: &[IVec], list: &[IVec], r: &IVec, s: &IVec) -> bool
    requires inequalities { All (IsShort k) inequalities.now }
    requires list { All (IsShort k) list.now }
    requires r { IsShort k r.now }
    requires s { IsShort k s.now }
    ensures { IsTrue result ↔ Adjacent inequalities.now list.now r.now s.now }
{
    for t in list {
        if !is_apart(k, inequalities, r, s, t) {
            return false;
        }
    }
    true
}
