//! The limits of a text of certificates.

/// The most blocks.
pub const FACES: u32 = 65_536;
