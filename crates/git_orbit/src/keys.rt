//! Masks of one cone.
ghost use Rattle.std.specs.Prelude.{◌≡◌, ◌↔◌, ◌≤◌, ◌<◌, ℕ, List, AllPairs, IsTrue, length, get_or, Contains};
ghost use Rattle.std.specs.Int.RustNames.{bit_and};
ghost use Rattle.git_orbit.specs.Keys.{HasKey, IsSwept};

/// Whether the mask meets each of the others.
fn meets_all(alongs: &[u16], m: u16) -> bool
    ensures { IsTrue result ↔ ((a : ℕ) → Contains alongs.now a → bit_and m a ≡ 0 → ⊥) }
{
    for a in alongs {
        if m & *a == 0 {
            return false;
        }
    }
    true
}

/// Whether the mask lies within the first and meets each of the others.
fn has_key(held: u16, alongs: &[u16], m: u16) -> bool
    ensures { IsTrue result ↔ HasKey held alongs.now m }
{
    if m & held != m {
        return false;
    }
    meets_all(alongs, m)
}

/// Marks the masks before a place that have the key. Answers the first place of these, or the place itself.
pub fn sweep(masks: &[u16], seen: &mut Vec<bool>, from: usize, held: u16, alongs: &[u16]) -> usize
    requires within { from < length masks.now }
    requires long { length seen.old.items ≡ length masks.now }
    requires descending { AllPairs (λ (m n : ℕ). n < m) masks.now }
    ensures { IsSwept (λ p. HasKey held alongs.now (get_or masks.now p 0)) from seen.old.items seen.new.items result }
{
    let mut best = from;
    for j in 0..from {
        let p = from - 1 - j;
        let m = masks[p];
        if m > held {
            return best;
        }
        if has_key(held, alongs, m) {
            seen[p] = true;
            best = p;
        }
    }
    best
}
