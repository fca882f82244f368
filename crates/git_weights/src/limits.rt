//! The limits of a text of weights.

/// The most weights.
pub const WEIGHTS: u32 = 1000;

/// The least entry of a weight, -2^40.
pub(crate) const ENTRY_LOW: i64 = -1_099_511_627_776;

/// The greatest entry of a weight, 2^40.
pub(crate) const ENTRY_HIGH: i64 = 1_099_511_627_776;
