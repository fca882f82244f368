//! Laws of the list of all cones, of the verdict on them and of their text: functions with an empty body,
//! whose contracts are the laws.
ghost use Rattle.git_cone_text.specs.Laws.{AllFacesAreShown, AllFacesExist, TextIsOne, VerdictIsDecided, VerdictIsOne, VerdictOrWidePair, WidePairIsOne};

/// Each face stands in the text under its dimension, in the order of the list.
pub fn all_faces_are_shown()
    ensures { AllFacesAreShown }
{}

/// Some cones have a list of all their faces.
pub fn all_faces_exist()
    ensures { AllFacesExist }
{}

/// Some cones have one verdict at most.
pub fn verdict_is_one()
    ensures { VerdictIsOne }
{}

/// Some cones have one first wide pair at most, with one evidence.
pub fn wide_pair_is_one()
    ensures { WidePairIsOne }
{}

/// No cones have both a verdict and a first wide pair.
pub fn verdict_or_wide_pair()
    ensures { VerdictOrWidePair }
{}

/// Some cones have a verdict or a first wide pair.
pub fn verdict_is_decided()
    ensures { VerdictIsDecided }
{}

/// Some cones have one text at most.
pub fn text_is_one()
    ensures { TextIsOne }
{}
