//! Vectors with the inequalities at which they are 0.
ghost use Rattle.std.specs.Prelude.{◌≡◌, ◌≤◌, ◌*◌, ◌++◌, [], ◌∷◌, All, IfOk, length, take, drop};
ghost use Rattle.git_stages.specs.Short.{IsShort};
ghost use Rattle.git_adjacency.specs.Marks.{IsRay, vectors};

use crate::marks::marked;
use git_base::NoMemory;
use git_ints::IVec;
use git_stages::add;
use std::alloc::Global;

/// A vector, and the numbers of the inequalities at which it is 0, as bits: number `64 i + b` is bit `b`
/// of word `i`.
#[derive(Drop)]
pub struct Ray {
    pub vector: IVec,
    pub zeros: Vec<u64>,
}

/// The first vectors with their marks.
pub fn first_rays(
    alloc: Global,
    k: usize,
    base: &[IVec],
    width: usize,
    list: &[IVec],
) -> Result<Vec<Ray>, NoMemory>
    requires base { All (IsShort k) base.now }
    requires list { All (IsShort k) list.now }
    requires room { length base.now ≤ 64 * width }
    ensures vectors { IfOk result (λ v. vectors v.items ≡ list.now) }
    ensures rays { IfOk result (λ v. All (IsRay k base.now width) v.items) }
{
    let mut out = Vec::new(alloc);
    for x in list {
        let zeros = marked(alloc, k, base, width, x)?;
        add(&mut out, Ray { vector: *x, zeros })?;
    }
    Ok(out)
}
