//! What an accepted certificate says.
ghost use Rattle.git_facecert.specs.Laws.{MonomialsRefute, FreeShow, OneAnswer, SomeAnswer};

/// An accepted monomial certificate shows that the face is no a-face.
pub fn accepted_monomial_certificates_show_none()
    ensures { MonomialsRefute }
{}

/// An accepted free certificate shows that the face is an a-face.
pub fn accepted_free_certificates_show_a_faces()
    ensures { FreeShow }
{}

/// A certificate is accepted, or some line is the first that fails.
pub fn certificates_have_an_answer()
    ensures { SomeAnswer }
{}

/// A certificate isn't accepted and refused at once, and no two lines are the first that fails.
pub fn certificates_have_one_answer()
    ensures { OneAnswer }
{}
