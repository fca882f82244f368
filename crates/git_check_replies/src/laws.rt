//! What holds of checking bytes. Each function is a law: its contract says it.
ghost use Rattle.git_check_replies.specs.Laws.{AnswersArePlain, FanWritesSuchTexts, OneAnswer, OnlyValidTextsAreValid, ValidTextsAreValid, WrittenTextsAreValid};

/// Bytes have one answer at most.
pub fn one_answer()
    ensures { OneAnswer }
{}

/// An input with a valid listing and valid certificates printed after it is answered `valid`.
pub fn valid_texts_are_valid()
    ensures { ValidTextsAreValid }
{}

/// And only an input with a valid listing and valid certificates after it is.
pub fn only_valid_texts_are_valid()
    ensures { OnlyValidTextsAreValid }
{}

/// An answer is `Done`, `Invalid` or `BadInput` with a text, which no certificates follow.
pub fn answers_are_plain()
    ensures { AnswersArePlain }
{}

/// What `fan` writes with certificates, where it is done, is the input's listing with one accepted certificate for each
/// full face, both within the limits of their texts.
pub fn fan_writes_such_texts()
    ensures { FanWritesSuchTexts }
{}

/// Behind the input it is answered `valid`.
pub fn written_texts_are_valid()
    ensures { WrittenTextsAreValid }
{}
