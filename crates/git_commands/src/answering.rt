//! The answers of the commands that read an input.
ghost use Rattle.std.specs.Prelude.{◌≡◌, ◌≤◌, IfOk, IsErrOf};
ghost use Rattle.std.specs.Io.KnownBytes.{IsAtEnd};
ghost use Rattle.git_base.specs.Faults.{HasRisen};
ghost use Rattle.git_base.specs.Prefixes.{LosesPrefix};
ghost use Rattle.git_base.specs.declared.status.Status.{Status};
ghost use Rattle.git_words.specs.declared.commands.Command.{Command};
ghost use Rattle.git_answers.specs.Ends.{over};
ghost use Rattle.git_replies.specs.declared.reply.Unanswered.{Unanswered};
ghost use Rattle.git_commands.specs.Commands.{output_of, reply_of};

use crate::faces::certified;
use git_answers::Output;
use git_base::{Source, Status};
use git_bunch_replies::bunch_answer;
use git_crew::Gate;
use git_fan::{fan_alone, fan_together};
use git_questions::cones_answer;
use git_replies::{Reading, Reply, Unanswered, read};
use git_weight_replies::locate_answer;
use git_weighted::{WeightedReading, read as read_weighted};
use git_words::{Command, STEPS, TABLE, WORKERS};
use std::alloc::Global;
use std::marker::Sync;
use std::sync::Wait;
use std::thread::Threads;

/// What `fan` writes: with the certificates of all full faces, or without.
fn output(certs: bool) -> Output
    ensures { result ≡ output_of certs }
{
    if certs {
        Output::Certified
    } else {
        Output::Plain
    }
}

/// The answer of `fan` on one thread.
pub(crate) fn answer_alone<R: Threads + Sync, S: Source>(
    rt: &R,
    alloc: Global,
    table: u32,
    steps: u64,
    certs: bool,
    source: &mut S,
) -> Result<Reply, Unanswered>
    requires table { (1 ≤ table) × (table ≤ TABLE) }
    requires steps { (1 ≤ steps) × (steps ≤ STEPS) }
    ensures answers { IfOk result (λ a. over (S.left source.old) (reply_of (Command.Fan 1 table steps certs)) a.status a.text.items) }
    ensures end { IfOk result (λ a. a.status ≡ Status.Done → IsAtEnd (S.left source.new)) }
    ensures read { IsErrOf result Unanswered.ReadFault → HasRisen (S.faults source.old) (S.faults source.new) }
    ensures lost { LosesPrefix (S.left source.old) (S.left source.new) }
{
    match read(alloc, source)? {
        Reading::Refused(reply) => Ok(reply),
        Reading::Input(input) => Ok(fan_alone(rt, alloc, &input, table, steps, output(certs))?),
    }
}

/// The answer of `fan` by several workers.
pub(crate) fn answer_together<R: Threads + Wait + Sync, S: Source, T: Gate + Sync>(
    rt: &R,
    alloc: Global,
    workers: u32,
    table: u32,
    steps: u64,
    certs: bool,
    gate: &T,
    source: &mut S,
) -> Result<Reply, Unanswered>
    requires workers { (1 ≤ workers) × (workers ≤ WORKERS) }
    requires table { (1 ≤ table) × (table ≤ TABLE) }
    requires steps { (1 ≤ steps) × (steps ≤ STEPS) }
    ensures answers { IfOk result (λ a. over (S.left source.old) (reply_of (Command.Fan workers table steps certs)) a.status a.text.items) }
    ensures end { IfOk result (λ a. a.status ≡ Status.Done → IsAtEnd (S.left source.new)) }
    ensures read { IsErrOf result Unanswered.ReadFault → HasRisen (S.faults source.old) (S.faults source.new) }
    ensures lost { LosesPrefix (S.left source.old) (S.left source.new) }
{
    let output = output(certs);
    match read(alloc, source)? {
        Reading::Refused(reply) => Ok(reply),
        Reading::Input(input) => Ok(fan_together(
            rt, alloc, &input, table, steps, output, workers, gate,
        )?),
    }
}

/// The answer of `faces`.
pub(crate) fn answer_faces<R: Threads + Sync, S: Source>(
    rt: &R,
    alloc: Global,
    steps: u64,
    source: &mut S,
) -> Result<Reply, Unanswered>
    requires steps { (1 ≤ steps) × (steps ≤ STEPS) }
    ensures answers { IfOk result (λ a. over (S.left source.old) (reply_of (Command.Faces steps)) a.status a.text.items) }
    ensures end { IfOk result (λ a. a.status ≡ Status.Done → IsAtEnd (S.left source.new)) }
    ensures read { IsErrOf result Unanswered.ReadFault → HasRisen (S.faults source.old) (S.faults source.new) }
    ensures lost { LosesPrefix (S.left source.old) (S.left source.new) }
{
    match read(alloc, source)? {
        Reading::Refused(reply) => Ok(reply),
        Reading::Input(input) => Ok(certified(rt, alloc, &input, steps)?),
    }
}

/// The answer of `cones`.
pub(crate) fn answer_cones<R: Threads + Sync, S: Source>(
    rt: &R,
    alloc: Global,
    table: u32,
    steps: u64,
    source: &mut S,
) -> Result<Reply, Unanswered>
    requires table { (1 ≤ table) × (table ≤ TABLE) }
    requires steps { (1 ≤ steps) × (steps ≤ STEPS) }
    ensures answers { IfOk result (λ a. over (S.left source.old) (reply_of (Command.AllCones table steps)) a.status a.text.items) }
    ensures end { IfOk result (λ a. a.status ≡ Status.Done → IsAtEnd (S.left source.new)) }
    ensures read { IsErrOf result Unanswered.ReadFault → HasRisen (S.faults source.old) (S.faults source.new) }
    ensures lost { LosesPrefix (S.left source.old) (S.left source.new) }
{
    match read(alloc, source)? {
        Reading::Refused(reply) => Ok(reply),
        Reading::Input(input) => Ok(cones_answer(rt, alloc, &input, table, steps)?),
    }
}

/// The answer of `bunch`.
pub(crate) fn answer_bunches<R: Threads + Sync, S: Source>(
    rt: &R,
    alloc: Global,
    table: u32,
    steps: u64,
    source: &mut S,
) -> Result<Reply, Unanswered>
    requires table { (1 ≤ table) × (table ≤ TABLE) }
    requires steps { (1 ≤ steps) × (steps ≤ STEPS) }
    ensures answers { IfOk result (λ a. over (S.left source.old) (reply_of (Command.Bunch table steps)) a.status a.text.items) }
    ensures end { IfOk result (λ a. a.status ≡ Status.Done → IsAtEnd (S.left source.new)) }
    ensures read { IsErrOf result Unanswered.ReadFault → HasRisen (S.faults source.old) (S.faults source.new) }
    ensures lost { LosesPrefix (S.left source.old) (S.left source.new) }
{
    match read(alloc, source)? {
        Reading::Refused(reply) => Ok(reply),
        Reading::Input(input) => Ok(bunch_answer(rt, alloc, &input, table, steps)?),
    }
}

/// The answer of `locate`.
pub(crate) fn answer_weights<R: Threads + Sync, S: Source>(
    rt: &R,
    alloc: Global,
    table: u32,
    steps: u64,
    source: &mut S,
) -> Result<Reply, Unanswered>
    requires table { (1 ≤ table) × (table ≤ TABLE) }
    requires steps { (1 ≤ steps) × (steps ≤ STEPS) }
    ensures answers { IfOk result (λ a. over (S.left source.old) (reply_of (Command.Locate table steps)) a.status a.text.items) }
    ensures end { IfOk result (λ a. a.status ≡ Status.Done → IsAtEnd (S.left source.new)) }
    ensures read { IsErrOf result Unanswered.ReadFault → HasRisen (S.faults source.old) (S.faults source.new) }
    ensures lost { LosesPrefix (S.left source.old) (S.left source.new) }
{
    match read_weighted(alloc, source)? {
        WeightedReading::Refused(reply) => Ok(reply),
        WeightedReading::Text(text) => Ok(locate_answer(
            rt,
            alloc,
            &text.input,
            &text.weights,
            table,
            steps,
        )?),
    }
}
