//! What is told of a moving chamber.

use git_ints::IVec;
use git_stages::WideAt;

/// A facet of a moving chamber by its inner normal, and the number of the moving chamber to which it leads;
/// `None` where it lies on the boundary of the moving cone.
#[derive(Clone, Copy, Debug)]
pub struct MoriFacet {
    pub normal: IVec,
    pub to: Option<u32>,
}

/// A moving chamber by its number in the listing, from 1. Its part is the least number of a moving chamber
/// to which a chain of moving chambers joins it, each naming the next or named by it at an inner facet.
#[derive(Debug, Drop)]
pub struct Moving {
    pub number: u32,
    pub part: u32,
    pub facets: Vec<MoriFacet>,
}

/// Why moving chambers aren't told.
#[derive(Clone, Copy, Debug, PartialEq, Eq)]
pub enum MoriFault {
    /// The columns but one, which is counted from 1, have full rank and are wide: the least such column.
    Wide { column: u32, at: WideAt },
    /// Memory ran out.
    NoMemory,
}
