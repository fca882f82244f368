//! What an ended run says of its face, apart from any code.

ghost use Rattle.git_saturate.specs.Laws.{FaceLaws};

/// Where a face's run ends without a lead 1, the face is an a-face and the members are an accepted
/// free certificate; where it ends with one, it is none, and has an accepted monomial certificate.
pub fn ended_runs_decide_faces()
    ensures { FaceLaws }
{}
