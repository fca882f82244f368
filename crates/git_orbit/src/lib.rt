//! Orbit cones: the distinct cones of the columns of faces, each once.
#![tactic(auto)]

mod faces;
mod germ;
mod index;
mod keys;
pub mod laws;
mod orbit;
mod sets;
mod signs;
mod words;

pub use germ::Germ;
pub use orbit::{Cones, ConesFault, OrbitCone};
pub use signs::{held, sign};
