//! Laws of the definitions, each the contract of an empty function.
ghost use Rattle.git_text.specs.Fronts.{OneFront, FrontFaultsAreFaults, FrontsHaveNoFault, WrittenInputsAreReadInFront};
ghost use Rattle.git_text.specs.Laws.{OneInput, InputsAreGraded, ReadingIsTheGrammar, OneFirstFault, InputsHaveNoFault, InputOrFirstFault, FaultsLieInTheText, LaterLinesDoNotMatter, MonomialsApartAreFound, WrittenInputsAreReadBack};

/// A text is one input at most.
pub fn one_input()
    ensures { OneInput }
{}

/// The matrix of an input is a grading.
pub fn inputs_are_graded()
    ensures { InputsAreGraded }
{}

/// What is read from the left is what the grammar says.
pub fn reading_is_the_grammar()
    ensures { ReadingIsTheGrammar }
{}

/// A text has one first fault at most.
pub fn one_first_fault()
    ensures { OneFirstFault }
{}

/// An input has no fault.
pub fn inputs_have_no_fault()
    ensures { InputsHaveNoFault }
{}

/// Each text is an input or has a first fault.
pub fn input_or_first_fault()
    ensures { InputOrFirstFault }
{}

/// A first fault lies in the text: its column is that of a byte of its line, or one past the line's end; and its line may be one past the last.
pub fn faults_lie_in_the_text()
    ensures { FaultsLieInTheText }
{}

/// But for what is missing or too much at the end, a first fault is that of each text with the same lines up to its own.
pub fn later_lines_do_not_matter()
    ensures { LaterLinesDoNotMatter }
{}

/// The monomials that reading finds apart are the lead's and the greatest of another degree, where there is one.
pub fn monomials_apart_are_found()
    ensures { MonomialsApartAreFound }
{}

/// The text that is written of an input is read back as it.
pub fn written_inputs_are_read_back()
    ensures { WrittenInputsAreReadBack }
{}

/// A text has one input at its head at most.
pub fn one_front()
    ensures { OneFront }
{}

/// A first fault of a text's head is the first fault of the text, and the other way round but for bytes after an input.
pub fn front_faults_are_faults()
    ensures { FrontFaultsAreFaults }
{}

/// A text with an input at its head has no fault there.
pub fn fronts_have_no_fault()
    ensures { FrontsHaveNoFault }
{}

/// The text that is written of an input is read back as it, whatever follows.
pub fn written_inputs_are_read_in_front()
    ensures { WrittenInputsAreReadInFront }
{}
