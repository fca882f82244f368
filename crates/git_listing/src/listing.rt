//! The listing of chambers.
use git_ints::IVec;

/// What lies behind a facet.
#[derive(Clone, Copy, Debug, PartialEq, Eq)]
pub enum ListedSide {
    /// Nothing: the facet lies on the boundary of the weight cone.
    Boundary,
    /// The chamber with this number, from 1, and whether that chamber shares the whole wall. In version 1,
    /// which says nothing of it, `matched` is false.
    Inner { chamber: u32, matched: bool },
}

/// A facet by its primitive inner normal.
#[derive(Clone, Copy, Debug)]
pub struct ListedFacet {
    pub normal: IVec,
    pub side: ListedSide,
}

/// A chamber by its rays and facets in order; the weight is the sum of the rays. `crossed` is the number of
/// a further cone, from 0, that holds the weight, where there is one: the least. In version 1 it is None.
#[derive(Debug, Drop)]
pub struct ListedChamber {
    pub rays: Vec<IVec>,
    pub weight: IVec,
    pub crossed: Option<u32>,
    pub facets: Vec<ListedFacet>,
}

/// All chambers in the order of their lists of rays, and how many distinct cones cut them. `version` is
/// that of the text: 2, or 1, which has no marks.
#[derive(Debug, Drop)]
pub struct Listing {
    pub version: u32,
    pub k: u32,
    pub r: u32,
    pub cones: u32,
    pub chambers: Vec<ListedChamber>,
}
