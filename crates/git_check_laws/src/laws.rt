//! Laws: functions with an empty body, whose contracts are the laws.
ghost use Rattle.git_check_laws.specs.Laws.{CheckHasAnAnswer, CheckHasOneAnswer, EachTextHasAnAnswer};

/// Of a listing and certificates beside an input one thing is answered at most.
pub fn check_has_one_answer()
    ensures { CheckHasOneAnswer }
{}

/// Of a listing and certificates within the limits of their texts, whoever made them, something is answered.
pub fn check_has_an_answer()
    ensures { CheckHasAnAnswer }
{}

/// To any bytes something is answered by checking them.
pub fn each_text_has_an_answer()
    ensures { EachTextHasAnAnswer }
{}
