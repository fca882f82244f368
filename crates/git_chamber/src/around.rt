//! The cones that hold all vectors of a list.
ghost use Rattle.std.specs.Prelude.{All, IfOk};
ghost use Rattle.git_stages.specs.Short.{IsShort};
ghost use Rattle.git_orbit.specs.Signatures.{IsHolding};

use git_base::NoMemory;
use git_ints::IVec;
use git_machine::Sig;
use git_orbit::Cones;
use std::alloc::Global;

/// The set of the numbers of the cones that hold each of the vectors, which have `k` entries, each of at
/// most 2^40 in absolute value.
pub fn holding(alloc: Global, cones: &Cones, rays: &[IVec]) -> Result<Sig, NoMemory>
    requires { All (IsShort cones.now.k) rays.now }
    ensures { IfOk result (λ s. IsHolding cones.now rays.now s) }
{
    cones.holding(alloc, rays)
}
