//! Laws of the answers: functions with an empty body, whose contracts are the laws.
ghost use Rattle.git_bunch_replies.specs.Laws.{OneAnswer, OneAnswerOfAnInput, SomeAnswer, SomeAnswerOfAnInput};

/// Of a listing over a family one thing is answered at most.
pub fn one_answer()
    ensures { OneAnswer }
{}

/// The same of the listing of an input.
pub fn one_answer_of_an_input()
    ensures { OneAnswerOfAnInput }
{}

/// Of a listing that is crossed over a family something is answered.
pub fn some_answer()
    ensures { SomeAnswer }
{}

/// The same of the listing of an input.
pub fn some_answer_of_an_input()
    ensures { SomeAnswerOfAnInput }
{}
