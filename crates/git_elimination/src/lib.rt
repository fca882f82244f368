//! The elimination that prepares the cone of the first independent inequalities: their list, the lists
//! of free vectors and of rays after them, and the other inequalities; refused by name where a stage is
//! wide.
#![tactic(auto)]

mod elimination;
mod fault;
mod splitting;

pub use fault::StageFault;
pub use splitting::{Split, split_all};
