//! What holds of the checker's reasons. Each function is a law: its contract says it.
ghost use Rattle.git_asked.specs.Laws.{AllHoldsExactlyOfTheListing, FirstFindingIsOne};

/// All that is asked holds exactly of the listing of what is reached from the first signature, and of the same
/// without marks where no chamber has one.
pub fn all_holds_exactly_of_the_listing()
    ensures { AllHoldsExactlyOfTheListing }
{}

/// Of what is asked of a listing there is one first finding.
pub fn first_finding_is_one()
    ensures { FirstFindingIsOne }
{}
