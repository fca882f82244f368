//! The limits of a listing's text.

/// The most cones and chambers, and the most rays and facets of a chamber.
pub const LISTED: u32 = 65_536;

/// The greatest number of a cone, counted from 0.
pub const LAST_CONE: u32 = 65_535;

/// The least entry of a ray or a normal, -2^40.
pub(crate) const ENTRY_LOW: i64 = -1_099_511_627_776;

/// The greatest entry of a ray or a normal, 2^40.
pub(crate) const ENTRY_HIGH: i64 = 1_099_511_627_776;

/// The least entry of a weight, -2^57.
pub(crate) const WEIGHT_LOW: i64 = -144_115_188_075_855_872;

/// The greatest entry of a weight, 2^57.
pub(crate) const WEIGHT_HIGH: i64 = 144_115_188_075_855_872;
