//! The reply to an input.
ghost use Rattle.std.specs.Prelude.{◌≤◌, IfOk};
ghost use Rattle.git_listing.specs.Views.{listing_of};
ghost use Rattle.git_replies.specs.Cases.{says};
ghost use Rattle.git_answers.specs.Ends.{spelled};
ghost use Rattle.git_answers.specs.Fan.{Options, options};
ghost use Rattle.git_listed_cones.specs.ListedCones.{HasCones};
ghost use Rattle.git_bunch_replies.specs.BunchCases.{bunches_of, tells};

use crate::reply::bunch_reply;
use git_base::NoMemory;
use git_chamber::FanGraph;
use git_facecert::FaceVerdict;
use git_fan::Listed;
use git_input::Input;
use git_input_cones::{free_masks, whole_mask};
use git_limits::STEPS;
use git_listed_cones::list_with_cones;
use git_listing::Listing;
use git_replies::Reply;
use std::alloc::Global;
use std::marker::Sync;
use std::thread::Threads;

/// The reply to an input that isn't refused, whose graph of signatures, verdicts and listing these are.
///
/// # Errors
///
/// `NoMemory`: memory ran out.
pub fn chambers_reply(
    alloc: Global,
    input: &Input,
    graph: &FanGraph,
    faces: &[FaceVerdict],
    listing: &Listing,
) -> Result<Reply, NoMemory>
    requires { (n : Options) × HasCones input.now n graph.now faces.now (listing_of listing.now) }
    ensures { IfOk result (λ a. tells input.now graph.now.fan (listing_of listing.now) (says a.status a.text.items)) }
{
    let _whole = whole_mask(input);
    let free = free_masks(alloc, faces)?;
    bunch_reply(alloc, graph.cones(), &input.grading, &free, listing)
}

/// The answer to an input by bunches, whose graph is closed on one thread: why its chambers aren't listed, or their
/// bunches. At most `table` signatures and `steps` steps of each face's run are allowed.
///
/// # Errors
///
/// `NoMemory`: memory ran out.
pub fn bunch_answer<R: Threads + Sync>(
    rt: &R,
    alloc: Global,
    input: &Input,
    table: u32,
    steps: u64,
) -> Result<Reply, NoMemory>
    requires some { 1 ≤ table }
    requires table { table ≤ 65536 }
    requires steps { steps ≤ STEPS }
    ensures { IfOk result (λ a. spelled input.now (bunches_of (options table steps) input.now) a.status a.text.items) }
{
    match list_with_cones(rt, alloc, input, table, steps)? {
        Listed::Refused(reply) => Ok(reply),
        Listed::Chambers {
            graph,
            faces,
            listing,
        } => chambers_reply(alloc, input, &graph, &faces, &listing),
    }
}
