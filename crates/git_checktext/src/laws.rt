//! What holds of check texts. Each function is a law: its contract says it.
ghost use Rattle.git_checktext.specs.Laws.{OneCheckText, OneRefusal, CheckTextOrRefusal, CheckTextsAreNotRefused, PrintedTextsAreCheckTexts};

/// Bytes are one check text at most.
pub fn one_check_text()
    ensures { OneCheckText }
{}

/// Bytes that are no check text have one answer at most.
pub fn one_refusal()
    ensures { OneRefusal }
{}

/// Any bytes are a check text or have such an answer.
pub fn check_text_or_refusal()
    ensures { CheckTextOrRefusal }
{}

/// Bytes that are a check text have no such answer.
pub fn check_texts_are_not_refused()
    ensures { CheckTextsAreNotRefused }
{}

/// An input whose last line has its line feed, with a printed listing and printed certificates after it, is a check text
/// that says the three.
pub fn printed_texts_are_check_texts()
    ensures { PrintedTextsAreCheckTexts }
{}
