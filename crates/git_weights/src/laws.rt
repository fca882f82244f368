//! What holds of texts of weights. Each function is a law: its contract says it.
ghost use Rattle.git_weights.specs.Laws.{ReadingIsTheGrammar, OneListOfWeights, OneFirstFault, WeightsAreSmall, WeightsHaveNoFault, WeightsOrFirstFault};

/// What is read from the left is what the grammar says.
pub fn reading_is_the_grammar()
    ensures { ReadingIsTheGrammar }
{}

/// A text is that of one list of weights at most.
pub fn one_list_of_weights()
    ensures { OneListOfWeights }
{}

/// A text has one first fault at most.
pub fn one_first_fault()
    ensures { OneFirstFault }
{}

/// A text of weights has no fault.
pub fn weights_have_no_fault()
    ensures { WeightsHaveNoFault }
{}

/// Each text is that of some weights or has a first fault.
pub fn weights_or_first_fault()
    ensures { WeightsOrFirstFault }
{}

/// The weights of a text are one to 1000, of `k` entries, each at most 2^40 in absolute value.
pub fn weights_are_small()
    ensures { WeightsAreSmall }
{}
