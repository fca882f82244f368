//! Certificates as text. What writes and what reads certificates stands on this crate.
#![tactic(auto)]

mod blocks;
mod fault;
mod laws;
mod limits;
mod polynomials;
mod printing;
mod reading;

pub use fault::CertsFault;
pub use laws::{certificates_read_are_printed, printed_certificates_are_read_back};
pub use limits::FACES;
pub use printing::{print, print_one};
pub use reading::read;

#[cfg(test)]
mod tests;
