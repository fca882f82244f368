//! Why a line is not read as a polynomial.
ghost use Rattle.std.specs.Prelude.{◌≡◌};
ghost use Rattle.git_polytext.specs.declared.fault.PolynomialFault.TheVariants.{Form as form, NoMemory as no_memory};

use git_base::NoMemory;
use git_lines::FormFault;
use std::alloc::{AllocError, AllocFailed};

/// Why a line is not read as a polynomial. Lines and columns count from 1, columns in bytes.
#[derive(Clone, Copy, Debug, PartialEq, Eq)]
pub enum PolynomialFault {
    /// `Syntax`: a byte that cannot follow, or one past the end where more has to come. `Range`: an exponent above 64 or a
    /// term too many, at the term's first byte. Other kinds of form do not come.
    Form(FormFault),
    /// A variable that there is not, at its `T`.
    Variable {
        /// The line's number.
        line: u32,
        /// The column of the `T`.
        column: u32,
    },
    /// There wasn't enough memory.
    NoMemory,
}

impl From<FormFault> for PolynomialFault {
    ghost from_gives = { λ f e. e ≡ form f };

    fn from(fault: FormFault) -> Self {
        PolynomialFault::Form(fault)
    }
}

impl From<NoMemory> for PolynomialFault {
    ghost from_gives = { λ _ e. e ≡ no_memory };

    fn from(_fault: NoMemory) -> Self {
        PolynomialFault::NoMemory
    }
}

impl From<AllocError> for PolynomialFault {
    ghost from_gives = { λ _ e. e ≡ no_memory };

    fn from(_error: AllocError) -> Self {
        PolynomialFault::NoMemory
    }
}

impl<T: Drop> From<AllocFailed<T>> for PolynomialFault {
    ghost from_gives = { λ _ e. e ≡ no_memory };

    fn from(_error: AllocFailed<T>) -> Self {
        PolynomialFault::NoMemory
    }
}
