//! The bunches of chambers.
use git_ints::IVec;

/// What changes at an inner facet: its primitive inner normal, the number, from 1, of the chamber behind it, and
/// three lists of masks of faces, each descending.
#[derive(Debug, Drop)]
pub struct Step {
    pub normal: IVec,
    pub to: u32,
    /// Stable on this side and not behind the facet.
    pub lost: Vec<u16>,
    /// Stable behind the facet and not on this side.
    pub gained: Vec<u16>,
    /// Stable in the middle of the facet and on neither side.
    pub wall: Vec<u16>,
}

/// The masks of the minimal stable faces of a chamber, descending, and what changes at its inner facets, in order.
#[derive(Debug, Drop)]
pub struct Bunch {
    pub minimal: Vec<u16>,
    pub steps: Vec<Step>,
}
