//! The verdict of a face: what its basis run says of it, with a certificate.
#![tactic(auto)]

mod deciding;
mod decision;
mod fault;
mod laws;
mod starting;
mod trading;

pub use deciding::verdict;
pub use decision::Verdict;
pub use fault::SatFault;
pub use laws::ended_runs_decide_faces;
pub use starting::start;

#[cfg(test)]
mod tests;
