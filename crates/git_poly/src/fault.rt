//! Why a product was refused.

use git_base::NoMemory;

/// Why a product was refused. The factors are unchanged.
#[derive(Clone, Copy, Debug, PartialEq, Eq)]
pub enum PolyFault {
    /// The total degree of the product would be above the limit of monomials.
    Degree,
    /// There wasn't enough memory.
    NoMemory,
}

impl From<NoMemory> for PolyFault {
    ghost use Rattle.std.specs.Prelude.{◌≡◌};
    ghost use Rattle.git_poly.specs.declared.fault.PolyFault.TheVariants.{NoMemory as no_memory};

    ghost from_gives = { λ _ e. e ≡ no_memory };

    fn from(_fault: NoMemory) -> Self {
        PolyFault::NoMemory
    }
}
