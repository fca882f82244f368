//! The limits that several crates share, each named once: contracts, definitions and code take them from
//! here. Nothing stands below this crate.
#![tactic(auto)]

/// The most rows of a matrix, which are the most entries of a vector.
pub const ROWS: usize = 6;

/// The most columns of a matrix, which are the most variables of a polynomial beside the extra one.
pub const COLUMNS: usize = 16;

/// The greatest absolute value of an entry of a matrix.
pub const COLUMN_ENTRY: u32 = 1000;

/// The greatest absolute value of an entry of a vector that is held in work on cones, 2^40.
pub const ENTRY: u64 = 1 << 40;

/// The most extreme vectors of a cone.
pub const MANY: usize = 65_536;

/// The most generators of an ideal.
pub const GENERATORS: usize = 64;

/// The most terms that are written in a polynomial of an input.
pub const TERMS: usize = 200;

/// The greatest exponent in a polynomial of an input.
pub const EXPONENT: u32 = 64;

/// The most bytes of an input, 4 MiB.
pub const INPUT_BYTES: usize = 4 << 20;

/// The most steps of one run of Buchberger's algorithm.
pub const STEPS: u64 = 20_000_000;

/// The most signatures that a table holds.
pub const SIGNATURES: usize = 65_536;

/// The most workers that share a table.
pub const WORKERS: usize = 64;

/// The most words that the signatures of a table take, 2^24.
pub const WORDS: usize = 1 << 24;
