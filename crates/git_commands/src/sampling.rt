//! The answer of `make`.
ghost use Rattle.std.specs.Prelude.{◌≡◌, ℕ, List, IfOk};
ghost use Rattle.git_words.specs.Laws.{IsSampleInRange};
ghost use Rattle.git_words.specs.declared.commands.Command.{Command};
ghost use Rattle.git_make.specs.Samples.{IsSample};
ghost use Rattle.git_answers.specs.Ends.{spelled};
ghost use Rattle.git_commands.specs.Commands.{makes, reply_of};

use git_answers::Output;
use git_base::{NoMemory, Status};
use git_fan::fan_alone;
use git_input::Input;
use git_make::{plucker, points};
use git_replies::Reply;
use git_text::write_input;
use git_words::{STEPS_UNSET, Sample, TABLE_UNSET};
use std::alloc::Global;
use std::marker::Sync;
use std::thread::Threads;

/// The input of a sample.
fn sample_input(alloc: Global, sample: Sample) -> Result<Input, NoMemory>
    requires { IsSampleInRange sample }
    ensures { IfOk result (λ i. IsSample sample i) }
{
    match sample {
        Sample::Points { n, seed } => points(alloc, n, seed),
        Sample::Plucker { n } => plucker(alloc, n),
    }
}

/// What `make` answers for its input: the text, or with `run` the counts of the listing.
fn answer_to_sample<R: Threads + Sync>(
    rt: &R,
    alloc: Global,
    input: &Input,
    run: bool,
) -> Result<Reply, NoMemory>
    ensures { IfOk result (λ a. spelled input.now (makes run input.now) a.status a.text.items) }
{
    if run {
        let (table, steps) = (TABLE_UNSET, STEPS_UNSET);
        fan_alone(rt, alloc, input, table, steps, Output::Counted)
    } else {
        Ok(Reply {
            status: Status::Done,
            text: write_input(alloc, input)?,
        })
    }
}

/// The answer of `make`.
pub(crate) fn sampled<R: Threads + Sync>(
    rt: &R,
    alloc: Global,
    sample: Sample,
    run: bool,
) -> Result<Reply, NoMemory>
    requires { IsSampleInRange sample }
    ensures { IfOk result (λ a. (bytes : List ℕ) → reply_of (Command.Make sample run) bytes a.status a.text.items) }
{
    let input = sample_input(alloc, sample)?;
    answer_to_sample(rt, alloc, &input, run)
}
