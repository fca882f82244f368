//! Gradings: matrices whose columns have full rank and a pointed cone. Stands on vectors and on the laws
//! of minors.
#![tactic(auto)]

mod bases;
mod fault;
mod grading;
mod minors;

pub use fault::GradingFault;
pub use grading::Grading;
