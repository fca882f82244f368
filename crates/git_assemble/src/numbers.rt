//! The numbers of chambers, by their signatures.
ghost use Rattle.std.specs.Prelude.{◌≡◌, ◌≤◌, IfOk, length};
ghost use Rattle.git_assemble.specs.Making.{signatures_in, IsNumbering};

use git_base::NoMemory;
use git_chamber::Chamber;
use git_machine::Sig;
use std::alloc::Global;
use std::collections::BTreeMap;

/// The number of each chamber, from 1, at its signature.
pub(crate) fn numbers_of(
    alloc: Global,
    chambers: &[Chamber],
) -> Result<BTreeMap<Sig, u32>, NoMemory>
    requires few { length chambers.now ≤ 65536 }
    ensures { IfOk result (λ m. IsNumbering (signatures_in chambers.now) m) }
{
    let mut numbers = BTreeMap::new(alloc);
    for i in 0..chambers.len() {
        let c = &chambers[i];
        let sig = c.sig.copied(alloc)?;
        numbers.insert(sig, i as u32 + 1)?;
    }
    Ok(numbers)
}
