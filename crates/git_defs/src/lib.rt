//! The definitions on which the program's promises rest: integer vectors, cones, faces and chambers.
//! Below it stand shared lemmas and the bits of masks. It holds no code: each function is a law, whose
//! contract says that the definitions mean what their names say.
#![tactic(auto)]

ghost use Rattle.git_defs.specs.Laws.{MembersAreContained, ConesHoldSums, ConesHoldMultiples, ConesHoldGenerators, CutIsDual, QuadrantHasUnitRays};

/// A vector is a member of a list exactly where the list contains it at some place.
pub fn members_are_contained()
    ensures { MembersAreContained }
{}

/// A cone holds the sums of its vectors.
pub fn cone_sums()
    ensures { ConesHoldSums }
{}

/// A cone holds the multiples of its vectors.
pub fn cone_multiples()
    ensures { ConesHoldMultiples }
{}

/// A cone holds its generators.
pub fn cone_generators()
    ensures { ConesHoldGenerators }
{}

/// The cone that inequalities cut out is the dual of the cone that they generate.
pub fn cut_cone()
    ensures { CutIsDual }
{}

/// The extreme vectors of the quadrant are its two unit vectors.
pub fn quadrant()
    ensures { QuadrantHasUnitRays }
{}
