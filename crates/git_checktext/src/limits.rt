//! The limit of a check text.

/// The most bytes of a check text, 64 MiB.
pub const TEXT_BYTES: usize = 64 << 20;
