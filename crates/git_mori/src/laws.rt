//! What holds of moving chambers and of their parts. Each function is a law: its contract says it.
ghost use Rattle.git_mori.specs.Laws.{MovingByRaysAndWeight, PartIsOne};

/// A chamber is moving exactly where its weight and all its rays are in the moving cone.
pub fn moving_by_rays_and_weight()
    ensures { MovingByRaysAndWeight }
{}

/// A moving chamber has one part.
pub fn part_is_one()
    ensures { PartIsOne }
{}
