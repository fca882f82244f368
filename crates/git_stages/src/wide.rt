//! Why a list of inequalities is wide.
use git_ints::IVec;

/// Why a stage of double description is wide.
#[derive(Clone, Copy, Debug, PartialEq, Eq)]
pub enum WideWhat {
    /// It has a vector with an entry above 2^40 in absolute value: the least one, in the order of vectors.
    Entry(IVec),
    /// It has no such vector, but more than 65,536 vectors.
    Many,
}

/// The first wide stage, counted from 1, and why it is wide.
#[derive(Clone, Copy, Debug, PartialEq, Eq)]
pub struct WideAt {
    pub stage: u32,
    pub what: WideWhat,
}
