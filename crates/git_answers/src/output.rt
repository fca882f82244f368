//! What is written of a listing.

/// What a run that lists chambers writes.
#[derive(Clone, Copy, Debug, PartialEq, Eq)]
pub enum Output {
    /// The listing.
    Plain,
    /// The listing, and after it the certificates of all full faces.
    Certified,
    /// One line: how many cones and chambers there are, and how many facets that are inner walls and that
    /// lie on the boundary.
    Counted,
}
