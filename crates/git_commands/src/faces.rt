//! The certificates of all full faces.
ghost use Rattle.std.specs.Prelude.{◌≤◌, IfOk};
ghost use Rattle.git_answers.specs.Ends.{spelled};
ghost use Rattle.git_answers.specs.Faces.{faces_of};

use git_base::{NoMemory, Status};
use git_certtext::print;
use git_faces::{FacesFault, full_faces, verdicts};
use git_input::Input;
use git_limits::STEPS;
use git_replies::{Reply, degree_line, steps_line};
use std::alloc::Global;
use std::marker::Sync;
use std::thread::Threads;

/// The answer of `faces` to an input.
pub(crate) fn certified<R: Threads + Sync>(
    rt: &R,
    alloc: Global,
    input: &Input,
    steps: u64,
) -> Result<Reply, NoMemory>
    requires { steps ≤ STEPS }
    ensures { IfOk result (λ a. spelled input.now (faces_of steps input.now) a.status a.text.items) }
{
    let masks = full_faces(alloc, &input.grading)?;
    match verdicts(rt, alloc, input, &masks, steps) {
        Ok(verdicts) => Ok(Reply {
            status: Status::Done,
            text: print(alloc, &verdicts)?,
        }),
        Err(FacesFault::Steps { mask, .. }) => steps_line(alloc, mask),
        Err(FacesFault::Degree { mask, .. }) => degree_line(alloc, mask),
        Err(FacesFault::NoMemory) => Err(NoMemory),
    }
}
