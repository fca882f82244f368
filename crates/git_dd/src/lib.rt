//! Double description: the extreme vectors of the cone that inequalities cut out, exact, with the
//! inequalities at which each is 0; refused by name where the cone has a line or where numbers pass
//! 2^40 on the way.
#![tactic(auto)]

mod answers;
mod extending;
mod listing;

pub use answers::{DdFault, Rays};
pub use git_adjacency::{Ray, are_adjacent, first_rays, has_common};
pub use git_elimination::StageFault;
pub use git_stages::{WideAt, WideWhat};
pub use listing::{full_rays, full_rays_of, rays};
