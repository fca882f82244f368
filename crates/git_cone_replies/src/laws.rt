//! Laws of the answers: functions with an empty body, whose contracts are the laws.
ghost use Rattle.git_cone_replies.specs.Laws.{OneAnswer, SomeAnswer};

/// Of a listing one thing is answered at most.
pub fn one_answer()
    ensures { OneAnswer }
{}

/// Of a listing of cones something is answered.
pub fn some_answer()
    ensures { SomeAnswer }
{}
