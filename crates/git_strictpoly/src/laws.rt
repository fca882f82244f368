//! Laws of the definitions, each the contract of an empty function.
ghost use Rattle.git_strictpoly.specs.Laws.{TextsReadArePrinted, PrintedTextsAreRead, FaultsAreOfFormOrRange};

/// What is read strictly is what is printed.
pub fn texts_read_are_printed()
    ensures { TextsReadArePrinted }
{}

/// What is printed is read strictly.
pub fn printed_texts_are_read()
    ensures { PrintedTextsAreRead }
{}

/// A fault is of form or of range.
pub fn faults_are_of_form_or_range()
    ensures { FaultsAreOfFormOrRange }
{}
