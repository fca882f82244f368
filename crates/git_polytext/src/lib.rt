//! Polynomials as text: reading the line of a polynomial, exact against a grammar, and printing one.
#![tactic(auto)]

mod fault;
mod laws;
mod printing;
mod reading;
mod signs;
mod terms;

pub use fault::PolynomialFault;
pub use laws::{
    faults_lie_in_the_line, lines_are_graded, lines_are_read, lines_have_one_value,
    lines_read_are_lines, polynomial_texts_are_plain, polynomials_are_read_back,
};
pub use printing::{append_poly, print_poly};
pub use reading::read_polynomial;

#[cfg(test)]
mod tests;
