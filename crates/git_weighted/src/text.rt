//! What a text of an input and weights says.
use git_input::Input;
use git_ints::IVec;

/// An input, and the weights after it.
#[derive(Drop)]
pub struct Weighted {
    pub input: Input,
    pub weights: Vec<IVec>,
}
