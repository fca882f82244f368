//! What holds of inputs with weights. Each function is a law: its contract says it.
ghost use Rattle.git_weighted.specs.Laws.{OneWeightedInput, OneRefusal, WeightedInputOrRefusal, WeightedInputsAreNotRefused, WeightsAreShort, WeightsFollowTheInput};

/// Bytes are one input with weights at most.
pub fn one_weighted_input()
    ensures { OneWeightedInput }
{}

/// Bytes that are none have one answer at most.
pub fn one_refusal()
    ensures { OneRefusal }
{}

/// Not both.
pub fn weighted_inputs_are_not_refused()
    ensures { WeightedInputsAreNotRefused }
{}

/// And one of the two.
pub fn weighted_input_or_refusal()
    ensures { WeightedInputOrRefusal }
{}

/// The weights have as many entries as the grading has rows, each at most 2^40 in absolute value.
pub fn weights_are_short()
    ensures { WeightsAreShort }
{}

/// An input whose last line has its line feed, with the text of weights after it, is an input with these weights.
pub fn weights_follow_the_input()
    ensures { WeightsFollowTheInput }
{}
