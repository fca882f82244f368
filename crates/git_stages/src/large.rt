//! Which vectors have a large entry: one above 2^40 in absolute value, and which are short.
ghost use Rattle.std.specs.Prelude.{◌≡◌, ◌↔◌, ◌^◌, ◌++◌, [], ◌∷◌, List, All, IsTrue};
ghost use Rattle.git_defs.specs.Vectors.{Vector};
ghost use Rattle.git_ints.specs.Padded.{AreWithin};
ghost use Rattle.git_stages.specs.Short.{IsShort};
ghost use Rattle.git_stages.specs.Wide.{IsLarge, IsLeastOf};

use git_ints::IVec;

/// Whether all entries are at most 2^40 in absolute value.
fn are_small(entries: &[i128]) -> bool
    ensures { IsTrue result ↔ AreWithin (2 ^ 40) entries.now }
{
    for entry in entries {
        if entry.unsigned_abs() > 1 << 40 {
            return false;
        }
    }
    true
}

/// Whether all entries are at most 2^40 in absolute value.
pub fn is_small(v: &IVec) -> bool
    ensures { IsTrue result ↔ AreWithin (2 ^ 40) v.now }
{
    are_small(v.as_slice())
}

/// Whether a vector has `k` entries, each at most 2^40 in absolute value.
fn is_short(k: usize, v: &IVec) -> bool
    ensures { IsTrue result ↔ IsShort k v.now }
{
    v.len() == k && is_small(v)
}

/// Whether all vectors have `k` entries, each at most 2^40 in absolute value.
pub fn are_short(k: usize, vs: &[IVec]) -> bool
    ensures { IsTrue result ↔ All (IsShort k) vs.now }
{
    for v in vs {
        if !is_short(k, v) {
            return false;
        }
    }
    true
}

/// The lesser of a large vector and the least found so far.
pub fn lesser(best: Option<IVec>, v: &IVec) -> Option<IVec>
    requires { IsLarge v.now }
    ensures { (seen : List Vector) → IsLeastOf seen best → IsLeastOf (seen ++ v.now ∷ []) result }
{
    match best {
        Some(u) => { if *v < u { Some(*v) } else { Some(u) } }
        None => Some(*v),
    }
}

/// The least large vector, of those seen before and of these.
pub fn least_large(best: Option<IVec>, vs: &[IVec]) -> Option<IVec>
    ensures { (seen : List Vector) → IsLeastOf seen best → IsLeastOf (seen ++ vs.now) result }
{
    let mut least = best;
    for v in vs {
        if !is_small(v) {
            least = lesser(least, v);
        }
    }
    least
}
