//! From an input to its chambers: its graph of signatures is opened, closed and listed. What `fan` writes
//! of the listing.
#![tactic(auto)]

mod listing;
mod opening;
mod writing;

pub use listing::{Listed, list_alone, list_together};
pub use writing::{fan_alone, fan_together};
