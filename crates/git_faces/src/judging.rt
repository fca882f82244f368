//! Verdicts of faces, from several threads.
ghost use Rattle.std.specs.Prelude.{◌≡◌, ◌<◌, ◌≤◌, IfErr, IfOk, IfSome, length, slice_set};
ghost use Rattle.std.specs.List.{AllZip};
ghost use Rattle.git_faces.specs.FaceVerdicts.{IsFaceVerdict, IsFirstStop, IsOutcome};
ghost use Rattle.git_faces.specs.Dealing.{IsFound, IsSeen, IsUnseen};

use crate::dealing::{Task, dealt};
use crate::fault::FacesFault;
use git_base::NoMemory;
use git_facecert::FaceVerdict;
use git_input::Input;
use git_limits::STEPS;
use git_saturate::{SatFault, verdict};
use rayon::prelude::*;
use std::alloc::{AllocError, Global};
use std::marker::Sync;
use std::sync::atomic::{AtomicUsize, Ordering};
use std::thread::Threads;

/// What was seen of the mask at a place: nothing where it was passed over.
#[derive(Drop)]
pub(crate) struct Found {
    place: usize,
    mask: u16,
    outcome: Option<Result<FaceVerdict, FacesFault>>,
}

/// The verdict of one face, or how its run stops.
fn face_verdict(
    alloc: Global,
    input: &Input,
    mask: u16,
    steps: u64,
) -> Result<FaceVerdict, FacesFault>
    requires { steps ≤ STEPS }
    ensures { IsOutcome input.now.generators steps mask result }
{
    match verdict(alloc, input, mask, steps) {
        Ok(found) => Ok(FaceVerdict {
            mask,
            cert: found.cert,
        }),
        Err(SatFault::Steps(trace)) => Err(FacesFault::Steps { mask, trace }),
        Err(SatFault::Degree { trace, step }) => Err(FacesFault::Degree { mask, trace, step }),
        Err(SatFault::NoMemory) => Err(FacesFault::NoMemory),
    }
}

/// What is found of a task. `stop` has the least place so far whose run stopped: a later place is passed
/// over, since it isn't asked for. A trace is kept where nothing comes before, and is made again else; so
/// many runs that stop take the memory of a few.
fn found_of(alloc: Global, input: &Input, task: &Task, steps: u64, stop: &AtomicUsize) -> Found
    requires { steps ≤ STEPS }
    ensures { IsFound input.now.generators steps task.now result }
{
    let place = task.place;
    let mask = task.mask;
    if stop.load(Ordering::SeqCst) < place {
        return Found {
            place,
            mask,
            outcome: None,
        };
    }
    let outcome = face_verdict(alloc, input, mask, steps);
    if outcome.is_err() {
        stop.fetch_min(place, Ordering::SeqCst);
    }
    let seen = kept(place, outcome);
    Found {
        place,
        mask,
        outcome: seen,
    }
}

/// An outcome, but for a trace at a place that isn't the first.
fn kept(
    place: usize,
    outcome: Result<FaceVerdict, FacesFault>,
) -> Option<Result<FaceVerdict, FacesFault>>
    ensures { IfSome result (λ o. o ≡ outcome) }
{
    match outcome {
        Err(FacesFault::NoMemory) => Some(Err(FacesFault::NoMemory)),
        Err(fault) => { if place == 0 { Some(Err(fault)) } else { None } }
        Ok(verdict) => Some(Ok(verdict)),
    }
}

/// What is found of each task, in their order.
fn judged<R: Threads + Sync>(
    rt: &R,
    alloc: Global,
    input: &Input,
    tasks: &[Task],
    steps: u64,
) -> Result<Vec<Found>, AllocError>
    requires { steps ≤ STEPS }
    ensures { IfOk result (λ v. AllZip (IsFound input.now.generators steps) tasks.now v.items) }
{
    let stop = AtomicUsize::new(usize::MAX);
    tasks
        .par_iter()
        .with_min_len(1)
        .map(
            |task: &Task| -> Found
                requires { steps ≤ STEPS }
                ensures { IsFound input.entry.now.generators steps task.now result }
            { found_of(alloc, input, task, steps, &stop) },
        )
        .collect(rt, alloc)
}

/// Each mask, of which nothing was seen.
fn unseen(alloc: Global, masks: &[u16]) -> Result<Vec<Found>, NoMemory>
    ensures { IfOk result (λ v. AllZip IsUnseen masks.now v.items) }
{
    let mut out = Vec::new(alloc);
    for (place, mask) in masks.iter().enumerate() {
        out.push(Found {
            place,
            mask: *mask,
            outcome: None,
        })?;
    }
    Ok(out)
}

/// Puts what was found in its place.
fn put(out: &mut Vec<Found>, found: Found)
    requires { found.place < length out.old.items }
    ensures { out.new.items ≡ slice_set out.old.items found.place found }
{
    let place = found.place;
    out[place] = found;
}

/// What is seen of each mask, in order. The threads take the masks in another order, and what they find
/// is put in the place of its mask.
fn seen<R: Threads + Sync>(
    rt: &R,
    alloc: Global,
    input: &Input,
    masks: &[u16],
    steps: u64,
) -> Result<Vec<Found>, NoMemory>
    requires { steps ≤ STEPS }
    ensures { IfOk result (λ v. AllZip (IsSeen input.now.generators steps) masks.now v.items) }
{
    let tasks = dealt(alloc, masks)?;
    let found = judged(rt, alloc, input, &tasks, steps)?;
    let mut out = unseen(alloc, masks)?;
    for one in found {
        put(&mut out, one);
    }
    Ok(out)
}

/// The outcome of a mask, which is judged now where nothing was seen of it.
fn settled(alloc: Global, input: &Input, steps: u64, seen: Found) -> Result<FaceVerdict, FacesFault>
    requires steps { steps ≤ STEPS }
    requires seen { IfSome seen.outcome (IsOutcome input.now.generators steps seen.mask) }
    ensures { IsOutcome input.now.generators steps seen.mask result }
{
    match seen.outcome {
        Some(outcome) => outcome,
        None => face_verdict(alloc, input, seen.mask, steps),
    }
}

/// One verdict for each mask, in order, each with a certificate: the runs are shared among threads.
/// At most `steps` steps of each run are made, and at most 20,000,000 are allowed. Once a run stops,
/// those of later masks are not begun.
///
/// # Errors
///
/// - `Steps`, `Degree`: of the masks whose run stops so, this is the first in order, whatever the
///   threads found first.
/// - `NoMemory`: memory ran out.
pub fn verdicts<R: Threads + Sync>(
    rt: &R,
    alloc: Global,
    input: &Input,
    masks: &[u16],
    steps: u64,
) -> Result<Vec<FaceVerdict>, FacesFault>
    requires { steps ≤ STEPS }
    ensures verdicts { IfOk result (λ v. AllZip (IsFaceVerdict input.now.generators steps) masks.now v.items) }
    ensures stopped { IfErr result (IsFirstStop input.now.generators steps masks.now) }
{
    let Ok(all) = seen(rt, alloc, input, masks, steps) else {
        return Err(FacesFault::NoMemory);
    };
    let mut out = Vec::new(alloc);
    for one in all {
        match settled(alloc, input, steps, one) {
            Ok(verdict) => {
                if out.push(verdict).is_err() {
                    return Err(FacesFault::NoMemory);
                }
            }
            Err(fault) => return Err(fault),
        }
    }
    Ok(out)
}
