//! Polynomials read in their one spelling.
#![tactic(auto)]

mod front;
mod laws;
mod limits;
mod reading;

pub use laws::{faults_are_of_form_or_range, printed_texts_are_read, texts_read_are_printed};
pub use limits::TEXT_DEGREE;
pub use reading::{StrictFault, strict_polynomial};

#[cfg(test)]
mod tests;
