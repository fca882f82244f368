//! Masks of an input's faces, and the cones of those that are a-faces.
ghost use Rattle.std.specs.Prelude.{◌≡◌, IfErr, IfOk};
ghost use Rattle.git_grading.specs.Gradings.{IsGrading};
ghost use Rattle.git_ideals.specs.Faces.{IsAFace};
ghost use Rattle.git_chamber.specs.Views.{AreConesOf};
ghost use Rattle.git_replies.specs.Cases.{Passes};
ghost use Rattle.git_answers.specs.Verdicts.{AreVerdicts, whole_face};
ghost use Rattle.git_answers.specs.Fan.{IsFanOf, wide_cone};
ghost use Rattle.git_input_cones.specs.InputCones.{AreFreeMasks, IsWideFault};

use git_base::NoMemory;
use git_facecert::{FaceCert, FaceVerdict};
use git_input::Input;
use git_orbit::{Cones, ConesFault};
use std::alloc::Global;

/// The mask of all variables of an input, which has a grading.
pub fn whole_mask(input: &Input) -> u16
    ensures mask { result ≡ whole_face input.now }
    ensures grading { IsGrading input.now.degrees.k input.now.degrees.columns }
{
    ((1u32 << input.grading.r()) - 1) as u16
}

/// The masks of the free verdicts, in their order.
pub fn free_masks(alloc: Global, faces: &[FaceVerdict]) -> Result<Vec<u16>, NoMemory>
    ensures { IfOk result (λ masks. AreFreeMasks faces.now masks.items) }
{
    let mut masks = Vec::new(alloc);
    for face in faces {
        if let FaceCert::Free { .. } = &face.cert {
            masks.push(face.mask)?;
        }
    }
    Ok(masks)
}

/// The distinct orbit cones of an input, whose full faces have these verdicts.
///
/// # Errors
///
/// - `Wide`: the columns of some a-face, the least with its cone, are wide: the first such mask.
/// - `NoMemory`: memory ran out.
pub fn input_cones(alloc: Global, input: &Input, faces: &[FaceVerdict]) -> Result<Cones, ConesFault>
    requires grading { IsGrading input.now.degrees.k input.now.degrees.columns }
    requires verdicts { AreVerdicts input.now faces.now }
    ensures fan { IfOk result (IsFanOf input.now) }
    ensures narrow { IfOk result (λ c. Passes (wide_cone input.now)) }
    ensures whole { IsAFace input.now.generators (whole_face input.now) → IfOk result (λ c. AreConesOf input.now.degrees.k input.now.degrees.columns c.list) }
    ensures wide { IfErr result (IsWideFault input.now) }
{
    let Ok(found) = free_masks(alloc, faces) else {
        return Err(ConesFault::NoMemory);
    };
    let masks: &[u16] = &found;
    Cones::new(alloc, &input.grading, masks)
}
