//! The chambers of an input, with what is known of its cones.
ghost use Rattle.std.specs.Prelude.{◌≤◌, IfOk};
ghost use Rattle.git_answers.specs.Fan.{options};
ghost use Rattle.git_listed_cones.specs.ListedCones.{IsListedWithCones};

use git_base::NoMemory;
use git_fan::{Listed, list_alone};
use git_input::Input;
use git_input_cones::whole_mask;
use git_limits::STEPS;
use std::alloc::Global;
use std::marker::Sync;
use std::thread::Threads;

/// The chambers of an input, as [`list_alone`] has them: the answer to an input that is refused, or its listing, the
/// verdicts of all full faces and the graph, whose cones are those of the free masks among the verdicts. At most
/// `table` signatures and `steps` steps of each face's run are allowed.
pub fn list_with_cones<R: Threads + Sync>(
    rt: &R,
    alloc: Global,
    input: &Input,
    table: u32,
    steps: u64,
) -> Result<Listed, NoMemory>
    requires some { 1 ≤ table }
    requires table { table ≤ 65536 }
    requires steps { steps ≤ STEPS }
    ensures { IfOk result (IsListedWithCones input.now (options table steps)) }
{
    let _whole = whole_mask(input);
    list_alone(rt, alloc, input, table, steps)
}
