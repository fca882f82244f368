//! How the run of a face stops that isn't ended.

ghost use Rattle.std.specs.Prelude.{◌≡◌};
ghost use Rattle.git_saturate.specs.Stops.{fault_of};

use git_basis::{BasisFault, Step, Trace};

/// How the run of a face stops that isn't ended.
#[derive(Drop, Debug)]
pub enum SatFault {
    /// The steps were made, and the run goes on.
    Steps(Trace),
    /// The next step is oversized.
    Degree { trace: Trace, step: Step },
    /// There wasn't enough memory.
    NoMemory,
}

/// The same of a run.
pub fn sat_fault(fault: BasisFault) -> SatFault
    ensures { result ≡ fault_of fault }
{
    match fault {
        BasisFault::Steps(trace) => SatFault::Steps(trace),
        BasisFault::Degree { trace, step } => SatFault::Degree { trace, step },
        BasisFault::NoMemory => SatFault::NoMemory,
    }
}
