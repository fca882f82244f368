//! The input text: a grading and the generators of an ideal. Its reader is exact against a grammar and names the first
//! fault with its place, and what its printer writes is read back. Stands on the reading and printing of lines and
//! polynomials and on gradings; the program's calls stand on it.
#![tactic(auto)]

mod columns;
mod fault;
mod fields;
mod generators;
mod input;
mod laws;
mod matrix;
mod rows;
mod writing;

pub use fault::{BadKind, InputFault};
pub use input::{announced_variables, read_input, read_input_front};
pub use laws::{
    faults_lie_in_the_text, front_faults_are_faults, fronts_have_no_fault, input_or_first_fault,
    inputs_are_graded, inputs_have_no_fault, later_lines_do_not_matter, monomials_apart_are_found,
    one_first_fault, one_front, one_input, reading_is_the_grammar, written_inputs_are_read_back,
    written_inputs_are_read_in_front,
};
pub use writing::write_input;

#[cfg(test)]
mod tests;
