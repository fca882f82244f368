//! What holds of stable faces. Each function is a law: its contract says it.
ghost use Rattle.git_bunch.specs.Laws.{BunchesAreOne, BunchesExist, FaceHasOneNumber, SidesLieInTheWall, StableExactlyOverAMinimal};

/// A face has one number at most.
pub fn face_has_one_number()
    ensures { FaceHasOneNumber }
{}

/// What is stable on a side of a wall is stable for the middle of the wall.
pub fn sides_lie_in_the_wall()
    ensures { SidesLieInTheWall }
{}

/// A full a-face is stable exactly where a minimal one lies within it.
pub fn stable_exactly_over_a_minimal()
    ensures { StableExactlyOverAMinimal }
{}

/// The chambers of a listing have one list of bunches at most.
pub fn bunches_are_one()
    ensures { BunchesAreOne }
{}

/// And one at least.
pub fn bunches_exist()
    ensures { BunchesExist }
{}
