//! A grading and the generators of an ideal.
use git_grading::Grading;
use git_poly::Poly;
use std::marker::Model;

/// A grading and the generators of an ideal: at most 64 polynomials in the grading's variables, with exponents of at most 64,
/// each homogeneous. The polynomial 0 may be among them.
#[derive(Drop)]
pub struct Input {
    pub grading: Grading,
    pub generators: Vec<Poly>,
}

impl Model for Input {
    ghost use Rattle.git_input.specs.Inputs.{InputValue, AreGenerators, input_code};

    ghost Value = { InputValue };

    ghost coded = { input_code };

    ghost view = { λ x. record { degrees = x.grading; generators = x.generators.items } };

    ghost invariant = { λ x. AreGenerators x.grading x.generators.items };
}
