//! Where a weight lies: which cones and which listed chambers hold it.
#![tactic(auto)]

mod around;
mod every;
pub mod laws;
mod located;
mod locating;
mod printing;

pub use every::locate_all;
pub use located::{LocateAllFault, LocateFault, Located, LocatedWeight};
pub use locating::locate;
pub use printing::print;
