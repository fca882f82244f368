//! The limits of torsion rows.

/// The most torsion rows of a grading.
pub const TORSION_ROWS: usize = 4;

/// The greatest modulus of a torsion row.
pub const MODULUS: u32 = 1000;

/// The greatest entry of a torsion row, in absolute value.
pub const TORSION_ENTRY: u32 = 1000;
