//! The answer to an input with its weights.
ghost use Rattle.std.specs.Prelude.{◌≤◌, All, IfOk};
ghost use Rattle.git_stages.specs.Short.{IsShort};
ghost use Rattle.git_answers.specs.Ends.{spelled};
ghost use Rattle.git_answers.specs.Fan.{listed_then, options};
ghost use Rattle.git_weight_replies.specs.WeightCases.{locate_case};

use crate::reply::locate_reply;
use git_base::NoMemory;
use git_fan::Listed;
use git_input::Input;
use git_ints::IVec;
use git_limits::STEPS;
use git_listed_cones::list_with_cones;
use git_replies::Reply;
use std::alloc::Global;
use std::marker::Sync;
use std::thread::Threads;

/// The answer to an input and weights: that to an input whose chambers aren't listed, or the reply to the weights
/// beside its listing and its cones. At most `table` signatures and `steps` steps of each face's run are allowed.
///
/// The weights have as many entries as the grading has rows, of at most 2^40 in absolute value.
pub fn locate_answer<R: Threads + Sync>(
    rt: &R,
    alloc: Global,
    input: &Input,
    weights: &[IVec],
    table: u32,
    steps: u64,
) -> Result<Reply, NoMemory>
    requires some { 1 ≤ table }
    requires table { table ≤ 65536 }
    requires steps { steps ≤ STEPS }
    requires weights { All (IsShort input.now.degrees.k) weights.now }
    ensures { IfOk result (λ a. spelled input.now (listed_then (options table steps) (locate_case weights.now) input.now) a.status a.text.items) }
{
    match list_with_cones(rt, alloc, input, table, steps)? {
        Listed::Refused(reply) => Ok(reply),
        Listed::Chambers { graph, listing, .. } => {
            locate_reply(alloc, graph.cones(), &listing, weights)
        }
    }
}
