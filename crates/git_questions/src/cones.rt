//! All cones of the chambers of an input.
ghost use Rattle.std.specs.Prelude.{◌≤◌, IfOk};
ghost use Rattle.git_answers.specs.Ends.{spelled};
ghost use Rattle.git_answers.specs.Fan.{options};
ghost use Rattle.git_questions.specs.Questions.{all_cones_of};

use git_base::NoMemory;
use git_cone_replies::cones_reply;
use git_fan::Listed;
use git_input::Input;
use git_limits::STEPS;
use git_listed_cones::list_with_cones;
use git_replies::Reply;
use std::alloc::Global;
use std::marker::Sync;
use std::thread::Threads;

/// The answer of `cones` to an input: why its chambers aren't listed, or all cones of them and whether they form a fan,
/// or why not that. At most `table` signatures and `steps` steps of each face's run are allowed.
pub fn cones_answer<R: Threads + Sync>(
    rt: &R,
    alloc: Global,
    input: &Input,
    table: u32,
    steps: u64,
) -> Result<Reply, NoMemory>
    requires some { 1 ≤ table }
    requires table { table ≤ 65536 }
    requires steps { steps ≤ STEPS }
    ensures { IfOk result (λ a. spelled input.now (all_cones_of (options table steps) input.now) a.status a.text.items) }
{
    match list_with_cones(rt, alloc, input, table, steps)? {
        Listed::Refused(reply) => Ok(reply),
        Listed::Chambers { listing, .. } => cones_reply(alloc, &listing),
    }
}
