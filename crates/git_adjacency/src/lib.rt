//! One further stage of double description: the extreme vectors after one inequality more, by neighbours
//! among those before, and each vector with the inequalities at which it is 0.
#![tactic(auto)]

mod marks;
mod plain;
mod ray;
mod stage;

pub use marks::{has_common, share_enough};
pub use plain::are_adjacent;
pub use ray::{Ray, first_rays};
pub use stage::{is_adjacent, next};
