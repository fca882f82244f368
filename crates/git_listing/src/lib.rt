//! Listings of chambers: their value and their text. What makes listings stands on this crate.
#![tactic(auto)]

mod chambers;
mod fault;
mod heads;
pub mod laws;
mod limits;
mod listing;
mod printing;
mod reading;
mod vectors;

pub use fault::ListingFault;
pub use limits::{LAST_CONE, LISTED};
pub use listing::{ListedChamber, ListedFacet, ListedSide, Listing};
pub use printing::print;
pub use reading::read;

#[cfg(test)]
mod tests;
