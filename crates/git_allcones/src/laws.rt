//! Laws of the list of all faces: functions with an empty body, whose contracts are the laws.
ghost use Rattle.git_allcones.specs.Laws.{ListOfFacesIsOne, ManyFacesPassTheLimit};

/// Some cones have one list of all faces.
pub fn list_of_faces_is_one()
    ensures { ListOfFacesIsOne }
{}

/// Faces are too many exactly where the list of all of them passes the limit.
pub fn many_faces_pass_the_limit()
    ensures { ManyFacesPassTheLimit }
{}
