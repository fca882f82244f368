//! What holds of all that is asked of certificates. Each function is a law: its contract says it.
ghost use Rattle.git_check_faces.specs.Laws.{AllHoldsExactlyOfTheVerdicts, VerdictsAreAccepted};

/// All that is asked holds exactly of one accepted certificate for each full face, masks descending, where the face
/// of all variables is an a-face.
pub fn all_holds_exactly_of_the_verdicts()
    ensures { AllHoldsExactlyOfTheVerdicts }
{}

/// What the certificates of verdicts say is accepted.
pub fn verdicts_are_accepted()
    ensures { VerdictsAreAccepted }
{}
