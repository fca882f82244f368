//! Why a text is not read.
ghost use Rattle.std.specs.Prelude.{◌≡◌};
ghost use Rattle.git_strictlines.specs.declared.fault.ReadFault.TheVariants.{Form as form, NoMemory as no_memory};

use git_lines::FormFault;
use std::alloc::{AllocError, AllocFailed};

/// Why a text is not read.
#[derive(Clone, Copy, Debug, PartialEq, Eq)]
pub enum ReadFault {
    /// The first fault of its form. The column is 1.
    Form(FormFault),
    /// Memory ran out.
    NoMemory,
}

impl From<FormFault> for ReadFault {
    ghost from_gives = { λ f e. e ≡ form f };

    fn from(fault: FormFault) -> ReadFault {
        ReadFault::Form(fault)
    }
}

impl From<AllocError> for ReadFault {
    ghost from_gives = { λ _ e. e ≡ no_memory };

    fn from(_error: AllocError) -> ReadFault {
        ReadFault::NoMemory
    }
}

impl<T: Drop> From<AllocFailed<T>> for ReadFault {
    ghost from_gives = { λ _ e. e ≡ no_memory };

    fn from(_error: AllocFailed<T>) -> ReadFault {
        ReadFault::NoMemory
    }
}
