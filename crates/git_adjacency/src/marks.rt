//! Sets of numbers as the bits of words.
ghost use Rattle.std.specs.Prelude.{◌≡◌, ◌↔◌, ◌⊎◌, ◌<◌, ◌≤◌, ◌*◌, ◌+◌, ℕ, List, All, IfOk, IsTrue, length};
ghost use Rattle.git_defs.specs.Vectors.{Vector};
ghost use Rattle.git_stages.specs.Short.{IsShort};
ghost use Rattle.git_adjacency.specs.Marks.{HasMark, IsMarked, shared};

use git_base::NoMemory;
use git_ints::IVec;
use git_stages::is_level;
use std::alloc::Global;

/// Whether each mark of both is one of the third.
pub fn has_common(r: &[u64], s: &[u64], t: &[u64]) -> bool
    requires second { length s.now ≡ length r.now }
    requires third { length t.now ≡ length r.now }
    ensures { IsTrue result ↔ ((j : ℕ) → HasMark r.now j → HasMark s.now j → HasMark t.now j) }
{
    for i in 0..r.len() {
        let both = r[i] & s[i];
        if both & t[i] != both {
            return false;
        }
    }
    true
}

/// Whether both have at least `k - 2` marks in common.
pub fn share_enough(k: usize, r: &[u64], s: &[u64]) -> bool
    requires { length s.now ≡ length r.now }
    ensures { IsTrue result ↔ (k ≤ shared r.now s.now + 2) }
{
    let mut left = k;
    for i in 0..r.len() {
        let here = (r[i] & s[i]).count_ones() as usize;
        if left <= here + 2 {
            return true;
        }
        left -= here;
    }
    left <= 2
}

/// One mark more.
pub fn mark(words: &mut Vec<u64>, bit: usize)
    requires { bit < 64 * length words.old.items }
    ensures long { length words.new.items ≡ length words.old.items }
    ensures each { (j : ℕ) → HasMark words.new.items j ↔ (HasMark words.old.items j ⊎ (j ≡ bit)) }
{
    let i = bit / 64;
    words[i] |= 1 << (bit % 64);
}

/// No marks.
fn blank(alloc: Global, width: usize) -> Result<Vec<u64>, NoMemory>
    ensures long { IfOk result (λ v. length v.items ≡ width) }
    ensures none { IfOk result (λ v. (j : ℕ) → HasMark v.items j → ⊥) }
{
    let mut out = Vec::new(alloc);
    for i in 0..width {
        let _ = i;
        if out.push(0u64).is_err() {
            return Err(NoMemory);
        }
    }
    Ok(out)
}

/// The marks of both.
fn both_of(alloc: Global, r: &[u64], s: &[u64]) -> Result<Vec<u64>, NoMemory>
    requires { length s.now ≡ length r.now }
    ensures long { IfOk result (λ v. length v.items ≡ length r.now) }
    ensures each { IfOk result (λ v. (j : ℕ) → HasMark v.items j ↔ (HasMark r.now j × HasMark s.now j)) }
{
    let Ok(mut out) = Vec::with_capacity(alloc, r.len()) else {
        return Err(NoMemory);
    };
    for i in 0..r.len() {
        if out.push(r[i] & s[i]).is_err() {
            return Err(NoMemory);
        }
    }
    Ok(out)
}

/// The marks of both, and one more.
pub fn common(alloc: Global, r: &[u64], s: &[u64], bit: usize) -> Result<Vec<u64>, NoMemory>
    requires second { length s.now ≡ length r.now }
    requires room { bit < 64 * length r.now }
    ensures long { IfOk result (λ v. length v.items ≡ length r.now) }
    ensures each { IfOk result (λ v. (j : ℕ) → HasMark v.items j ↔ ((HasMark r.now j × HasMark s.now j) ⊎ (j ≡ bit))) }
{
    let mut out = both_of(alloc, r, s)?;
    mark(&mut out, bit);
    Ok(out)
}

/// The marks of a vector, in `width` words.
pub fn marked(
    alloc: Global,
    k: usize,
    inequalities: &[IVec],
    width: usize,
    x: &IVec,
) -> Result<Vec<u64>, NoMemory>
    requires inequalities { All (IsShort k) inequalities.now }
    requires x { IsShort k x.now }
    requires room { length inequalities.now ≤ 64 * width }
    ensures { IfOk result (λ v. IsMarked inequalities.now width x.now v.items) }
{
    let mut words = blank(alloc, width)?;
    for j in 0..inequalities.len() {
        if is_level(k, &inequalities[j], x) {
            mark(&mut words, j);
        }
    }
    Ok(words)
}
