//! Why double description stops.
use git_stages::WideAt;

/// Why a list of inequalities of full rank has no extreme vectors.
#[derive(Clone, Copy, Debug, PartialEq, Eq)]
pub enum StageFault {
    /// The list is wide.
    Wide(WideAt),
    /// Memory ran out.
    NoMemory,
}
