//! Why columns are no grading.
ghost use Rattle.std.specs.Prelude.{◌≡◌};
ghost use Rattle.git_grading.specs.declared.fault.GradingFault.TheVariants.{NoMemory};

use std::alloc::AllocError;

/// Why columns are no grading.
#[derive(Clone, Copy, Debug, PartialEq, Eq)]
pub enum GradingFault {
    /// Fewer columns are independent than there are rows.
    Rank,
    /// Natural numbers, not all 0, make the columns sum to 0.
    Pointed,
    /// Memory ran out.
    NoMemory,
}

impl From<AllocError> for GradingFault {
    ghost from_gives = { λ _ e. e ≡ NoMemory };

    fn from(_error: AllocError) -> GradingFault {
        GradingFault::NoMemory
    }
}
