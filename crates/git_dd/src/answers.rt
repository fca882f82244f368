//! The answers of double description.
use git_ints::IVec;
use git_stages::WideAt;

/// The extreme vectors of a cone, in order, and for each the numbers of the inequalities at which it is
/// 0, counted from 0 in the prepared list, ascending.
#[derive(Drop)]
pub struct Rays {
    pub list: Vec<IVec>,
    pub tight: Vec<Vec<u32>>,
}

/// Why double description has no list.
#[derive(Clone, Copy, Debug, PartialEq, Eq)]
pub enum DdFault {
    /// No `k` of the inequalities are independent, so the cone has a line; `rank` of them are.
    NotPointed { rank: u32 },
    /// The list is wide.
    Wide(WideAt),
    /// Memory ran out.
    NoMemory,
}
