//! What a verdict is.

use git_basis::Trace;
use git_facecert::FaceCert;

/// What is shown of a face.
#[derive(Drop, Debug)]
pub struct Verdict {
    /// Whether the face is an a-face.
    pub free: bool,
    /// A certificate, free for a-faces and monomial for others.
    pub cert: FaceCert,
    /// The steps of the run, which is ended.
    pub trace: Trace,
}
