//! Why there are no verdicts.

use git_basis::{Step, Trace};

/// Why there are no verdicts.
#[derive(Drop, Debug)]
pub enum FacesFault {
    /// The run of this mask makes the steps allowed, and goes on.
    Steps { mask: u16, trace: Trace },
    /// The next step of this mask's run is oversized.
    Degree { mask: u16, trace: Trace, step: Step },
    /// Memory ran out.
    NoMemory,
}
