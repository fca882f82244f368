//! Lists that grow.
ghost use Rattle.std.specs.Prelude.{◌≡◌, ◌≤◌, ◌<◌, ◌+◌, [], ◌∷◌, ◌++◌, IfOk, length, take, drop};
ghost use Rattle.git_defs.specs.Vectors.{units};

use git_base::NoMemory;
use git_ints::IVec;
use std::alloc::Global;

/// One element more.
pub fn add<T: Drop>(out: &mut Vec<T>, value: T) -> Result<(), NoMemory>
    ensures { IfOk result (λ _. out.new.items ≡ out.old.items ++ value ∷ []) }
{
    if out.push(value).is_err() {
        return Err(NoMemory);
    }
    Ok(())
}

/// Some vectors more.
pub fn append(out: &mut Vec<IVec>, vs: &[IVec]) -> Result<(), NoMemory>
    ensures { IfOk result (λ _. out.new.items ≡ out.old.items ++ vs.now) }
{
    if out.extend_from_slice(vs).is_err() {
        return Err(NoMemory);
    }
    Ok(())
}

/// Two lists, one after the other.
pub fn joined(alloc: Global, front: &[IVec], back: &[IVec]) -> Result<Vec<IVec>, NoMemory>
    ensures { IfOk result (λ v. v.items ≡ front.now ++ back.now) }
{
    let mut out = Vec::new(alloc);
    append(&mut out, front)?;
    append(&mut out, back)?;
    Ok(out)
}

/// All but the one at a place.
pub fn without(alloc: Global, vs: &[IVec], i: usize) -> Result<Vec<IVec>, NoMemory>
    requires { i < length vs.now }
    ensures { IfOk result (λ w. w.items ≡ take i vs.now ++ drop (i + 1) vs.now) }
{
    let mut out = Vec::new(alloc);
    append(&mut out, &vs[..i])?;
    append(&mut out, &vs[i + 1..])?;
    Ok(out)
}

/// The unit vectors of `k` entries, in order.
pub fn unit_vectors(alloc: Global, k: usize) -> Result<Vec<IVec>, NoMemory>
    requires { k ≤ 6 }
    ensures { IfOk result (λ v. v.items ≡ units k) }
{
    let mut out = Vec::new(alloc);
    for i in 0..k {
        add(&mut out, IVec::unit(k, i))?;
    }
    Ok(out)
}
