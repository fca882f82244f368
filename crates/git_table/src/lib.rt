//! The frontier of a closure: a lock-free table of signatures, by which many callers close one graph. Stands
//! on the rule of the visited table and its laws; the crew stands on it.
//!
//! A caller has a [`Seat`]. It takes an id, reads its signature, offers each signature to which that leads,
//! and finishes the id, until a take says that all is quiet.
#![tactic(auto)]

mod answers;
mod ends;
mod frontier;
mod offer;
mod offers;
mod seat;
mod stack;
mod start;
mod steps;
mod takes;
mod visited;

pub use answers::{Hinted, Listed, Offer, Taken};
pub use frontier::Frontier;
pub use seat::Seat;
