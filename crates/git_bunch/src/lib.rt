//! Stable faces: full a-faces whose orbit cones are in a set of cones; the bunches of the chambers of a listing.
#![tactic(auto)]

mod bunching;
mod cones;
mod gathering;
mod groups;
mod keys;
pub mod laws;
mod masks;
mod numbers;
mod printing;
mod values;

pub use bunching::bunch;
pub use numbers::number_of;
pub use printing::print;
pub use values::{Bunch, Step};
