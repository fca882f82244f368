//! Lists of masks: in order, and those within which no other lies.
ghost use Rattle.std.specs.Prelude.{◌≡◌, ◌↔◌, ◌<◌, ℕ, AllPairs, Contains, IfOk, IsTrue};
ghost use Rattle.git_bits.specs.Bits.{IsWithin};
ghost use Rattle.git_bunch.specs.Stable.{AreDescending};
ghost use Rattle.git_bunch.specs.Least.{AreLeast, AreLeastOf};

use git_base::NoMemory;
use git_stages::add;
use std::alloc::Global;

/// The masks from the greatest down, each once.
pub(crate) fn falling(list: Vec<u16>) -> Vec<u16>
    ensures { AreDescending (Contains list.items) result.items }
{
    let mut all = list;
    all.sort_unstable();
    all.dedup();
    all.reverse();
    all
}

/// Whether one of the masks lies within a mask.
fn contains_one(mask: u16, list: &[u16]) -> bool
    ensures { IsTrue result ↔ ((n : ℕ) × Contains list.now n × IsWithin n mask) }
{
    for n in list {
        if *n & mask == *n {
            return true;
        }
    }
    false
}

/// Of descending masks those within which no other lies. A mask within another is less, so they are gone through from
/// the least up, and each is asked against those that were found before.
fn sifted(alloc: Global, list: &[u16]) -> Result<Vec<u16>, NoMemory>
    requires { AllPairs (λ (m n : ℕ). n < m) list.now }
    ensures { IfOk result (λ v. AreLeast list.now v.items) }
{
    let mut out = Vec::new(alloc);
    for j in 0..list.len() {
        let mask = list[list.len() - 1 - j];
        if !contains_one(mask, &out) {
            add(&mut out, mask)?;
        }
    }
    Ok(out)
}

/// The masks within which no other of the list lies, from the greatest down.
pub(crate) fn least_of(alloc: Global, list: &[u16]) -> Result<Vec<u16>, NoMemory>
    ensures { IfOk result (λ v. AreLeastOf list.now v.items) }
{
    let all = falling(Vec::from_slice(alloc, list)?);
    Ok(falling(sifted(alloc, &all)?))
}
