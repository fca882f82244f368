//! What full faces and the runs of masks are, apart from any code.

ghost use Rattle.git_faces.specs.Laws.{EndedRunsCertify, FullFaceLaws, StopLaws};

/// Vectors have one list of full faces.
pub fn full_faces_are_one_list()
    ensures { FullFaceLaws }
{}

/// The runs of all masks end, or one of them is the first that stops; faults other than want of memory
/// agree on it.
pub fn runs_of_masks_are_decided()
    ensures { StopLaws }
{}

/// Where the run of a face ends, the face has a certificate of its kind.
pub fn ended_runs_certify()
    ensures { EndedRunsCertify }
{}
