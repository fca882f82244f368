//! The limits of a polynomial's text.

/// The greatest total degree of a term, 2^25.
pub const TEXT_DEGREE: u64 = 33_554_432;

/// The greatest absolute value of a coefficient's representative next to 0, half of the modulus.
pub(crate) const LARGEST_SIZE: u64 = 16_001;

/// One more than the powers that a term can have, since their places ascend from 0 to 16.
pub(crate) const POWER_STEPS: usize = 18;
