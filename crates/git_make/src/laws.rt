//! Laws of the definitions, each the contract of an empty function.
ghost use Rattle.git_make.specs.Laws.{OneInput, SomeInput, SamplesAreInputs};

/// A sample is one input at most.
pub fn one_input()
    ensures { OneInput }
{}

/// A sample is an input.
pub fn some_input()
    ensures { SomeInput }
{}

/// The matrix of a sample in range is a grading, and its polynomials are generators under it.
pub fn samples_are_inputs()
    ensures { SamplesAreInputs }
{}
