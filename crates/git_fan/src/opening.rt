//! The fan of an input, as far as its graph of signatures.
ghost use Rattle.std.specs.Prelude.{◌≡◌, ◌≤◌, ◌∷◌, ℕ, List, IfOk, drop, length};
ghost use Rattle.git_base.specs.declared.status.Status.{Status};
ghost use Rattle.git_input.specs.Inputs.{InputValue};
ghost use Rattle.git_facecert.specs.declared.certificate.FaceVerdict.{FaceVerdict};
ghost use Rattle.git_grading.specs.Gradings.{IsGrading};
ghost use Rattle.git_ideals.specs.Faces.{IsAFace};
ghost use Rattle.git_orbit.specs.Signatures.{width_of};
ghost use Rattle.git_chamber.specs.Views.{AreConesOf};
ghost use Rattle.git_answers.specs.Ends.{spelled};
ghost use Rattle.git_answers.specs.Verdicts.{AreVerdicts, IsVerdict, whole_face};
ghost use Rattle.git_answers.specs.Fan.{refuses, has_monomial, after_whole, after_verdicts, after_cones, IsFanOf, options};
ghost use Rattle.git_replies.specs.Lines.{monomial_text};
ghost use Rattle.git_fan.specs.Fans.{IsOpened, IsWholeVerdict, IsWideReply};

use git_base::{NoMemory, Status};
use git_certtext::print_one;
use git_chamber::FanGraph;
use git_facecert::FaceVerdict;
use git_faces::{FacesFault, full_faces, verdicts};
use git_grading::Grading;
use git_input::Input;
use git_input_cones::{input_cones, whole_mask};
use git_limits::STEPS;
use git_orbit::{Cones, ConesFault, OrbitCone};
use git_replies::{Reply, degree_line, steps_line, table_wide_line, wide_face_line};
use git_saturate::{SatFault, verdict};
use std::alloc::Global;
use std::marker::Sync;
use std::thread::Threads;

/// The fan of an input: what is answered already, or the graph of its signatures, which is to be closed,
/// with the verdicts of all full faces.
#[derive(Drop)]
pub(crate) enum Opened {
    Decided(Reply),
    Open(FanGraph, Vec<FaceVerdict>),
}

/// The verdict of the whole face, and those of the others after it.
fn with_others(
    alloc: Global,
    whole: FaceVerdict,
    others: Vec<FaceVerdict>,
) -> Result<Vec<FaceVerdict>, NoMemory>
    ensures { IfOk result (λ faces. faces.items ≡ whole ∷ others.items) }
{
    let mut faces = Vec::new(alloc);
    faces.push(whole)?;
    for face in others {
        faces.push(face)?;
    }
    Ok(faces)
}

/// The line of an ideal with a monomial.
fn monomial_start(alloc: Global) -> Result<Vec<u8>, NoMemory>
    ensures { IfOk result (λ text. text.items ≡ monomial_text) }
{
    Ok(b"refused monomial\n".to_vec(alloc)?)
}

/// The line of an ideal with a monomial, and the whole face's certificate.
fn monomial_line(alloc: Global, whole: &FaceVerdict) -> Result<Reply, NoMemory>
    ensures { (v : InputValue) → IsVerdict v whole.now → whole.now.mask ≡ whole_face v → (IsAFace v.generators (whole_face v) → ⊥)
        → IfOk result (λ a. spelled v (has_monomial v) a.status a.text.items) }
{
    let mut text = monomial_start(alloc)?;
    let block = print_one(alloc, whole)?;
    text.extend_from_slice(&block)?;
    Ok(Reply {
        status: Status::Monomial,
        text,
    })
}

/// The number of words of a signature.
fn width(cones: &Cones) -> usize
    ensures is { result ≡ width_of cones.now }
    ensures few { result ≤ 1024 }
{
    let list: &[OrbitCone] = &cones.list;
    list.len().div_ceil(64)
}

/// Where the cones are known: their table is too wide, or their graph is made.
fn after_cones(
    alloc: Global,
    cones: Cones,
    grading: &Grading,
    faces: Vec<FaceVerdict>,
    table: u32,
) -> Result<Opened, NoMemory>
    requires table { table ≤ 65536 }
    requires entries { cones.k ≡ grading.now.k }
    requires cones { AreConesOf grading.now.k grading.now.columns cones.list }
    ensures { (v : InputValue) (s : ℕ) → IsFanOf v cones → AreVerdicts v faces.items → v.degrees ≡ grading.now
        → IfOk result (IsOpened v (options table s) (after_cones (options table s) v)) }
{
    let width = width(&cones);
    if (1 << 24) < (table as usize + 64) * width {
        let reply = table_wide_line(alloc, table, width)?;
        return Ok(Opened::Decided(reply));
    }
    let graph = FanGraph::new(cones, grading);
    Ok(Opened::Open(graph, faces))
}

/// The line of a wide cone.
fn wide_or_memory(alloc: Global, fault: ConesFault) -> Result<Reply, NoMemory>
    ensures { IfOk result (λ a. IsWideReply fault a.status a.text.items) }
{
    match fault {
        ConesFault::Wide { mask, at } => wide_face_line(alloc, mask, at),
        ConesFault::NoMemory => Err(NoMemory),
    }
}

/// Where all verdicts are known: a cone is wide, or the cones are made.
fn after_verdicts(
    alloc: Global,
    input: &Input,
    faces: Vec<FaceVerdict>,
    table: u32,
) -> Result<Opened, NoMemory>
    requires table { table ≤ 65536 }
    requires grading { IsGrading input.now.degrees.k input.now.degrees.columns }
    requires verdicts { AreVerdicts input.now faces.items }
    requires whole { IsAFace input.now.generators (whole_face input.now) }
    ensures { (s : ℕ) → IfOk result (IsOpened input.now (options table s) (after_verdicts (options table s) input.now)) }
{
    let listed: &[FaceVerdict] = &faces;
    match input_cones(alloc, input, listed) {
        Ok(cones) => after_cones(alloc, cones, &input.grading, faces, table),
        Err(fault) => {
            let reply = wide_or_memory(alloc, fault)?;
            Ok(Opened::Decided(reply))
        }
    }
}

/// The masks after the first.
fn after_first(masks: &[u16]) -> &[u16]
    requires { 1 ≤ length masks.now }
    ensures { result.now ≡ drop 1 masks.now }
{
    &masks[1..]
}

/// Where the whole face is an a-face: the run of another full face stops, or all verdicts are known.
fn after_whole<R: Threads + Sync>(
    rt: &R,
    alloc: Global,
    input: &Input,
    whole: FaceVerdict,
    table: u32,
    steps: u64,
) -> Result<Opened, NoMemory>
    requires table { table ≤ 65536 }
    requires steps { steps ≤ STEPS }
    requires grading { IsGrading input.now.degrees.k input.now.degrees.columns }
    requires whole { IsWholeVerdict input.now steps whole }
    ensures { IfOk result (IsOpened input.now (options table steps) (after_whole (options table steps) input.now)) }
{
    let masks = full_faces(alloc, &input.grading)?;
    match verdicts(rt, alloc, input, after_first(&masks), steps) {
        Ok(others) => {
            let faces = with_others(alloc, whole, others)?;
            after_verdicts(alloc, input, faces, table)
        }
        Err(FacesFault::Steps { mask, .. }) => {
            let reply = steps_line(alloc, mask)?;
            Ok(Opened::Decided(reply))
        }
        Err(FacesFault::Degree { mask, .. }) => {
            let reply = degree_line(alloc, mask)?;
            Ok(Opened::Decided(reply))
        }
        Err(FacesFault::NoMemory) => Err(NoMemory),
    }
}

/// The fan of an input: one of the cases before the closure decides, or its graph is made.
pub(crate) fn open_fan<R: Threads + Sync>(
    rt: &R,
    alloc: Global,
    input: &Input,
    table: u32,
    steps: u64,
) -> Result<Opened, NoMemory>
    requires table { table ≤ 65536 }
    requires steps { steps ≤ STEPS }
    ensures { IfOk result (IsOpened input.now (options table steps) (refuses (options table steps) input.now)) }
{
    let mask = whole_mask(input);
    match verdict(alloc, input, mask, steps) {
        Ok(found) => {
            let whole = FaceVerdict {
                mask,
                cert: found.cert,
            };
            if found.free {
                after_whole(rt, alloc, input, whole, table, steps)
            } else {
                let reply = monomial_line(alloc, &whole)?;
                Ok(Opened::Decided(reply))
            }
        }
        Err(SatFault::Steps(_)) => {
            let reply = steps_line(alloc, mask)?;
            Ok(Opened::Decided(reply))
        }
        Err(SatFault::Degree { .. }) => {
            let reply = degree_line(alloc, mask)?;
            Ok(Opened::Decided(reply))
        }
        Err(SatFault::NoMemory) => Err(NoMemory),
    }
}
