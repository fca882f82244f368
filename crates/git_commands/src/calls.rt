//! The call of each command.
ghost use Rattle.std.specs.Prelude.{◌≡◌, ◌≤◌, []};
ghost use Rattle.std.specs.Io.KnownBytes.{IsAtEnd};
ghost use Rattle.git_base.specs.Faults.{HasRisen};
ghost use Rattle.git_base.specs.Prefixes.{LosesPrefix};
ghost use Rattle.git_base.specs.declared.status.Status.{Status};
ghost use Rattle.git_words.specs.Laws.{IsSampleInRange};
ghost use Rattle.git_words.specs.declared.commands.Command.{Command};
ghost use Rattle.git_answers.specs.Ends.{over, WritesOr, Ends};
ghost use Rattle.git_commands.specs.Commands.{reply_of};
ghost use Rattle.git_replies.specs.Readings.{IsUnanswered};

use crate::answering::{
    answer_alone, answer_bunches, answer_cones, answer_faces, answer_together, answer_weights,
};
use crate::sampling::sampled;
use git_base::{Sink, Source, Status, write_all_of};
use git_crew::Gate;
use git_replies::Unanswered;
use git_words::{STEPS, Sample, TABLE, WORKERS};
use std::alloc::Global;
use std::marker::Sync;
use std::sync::Wait;
use std::thread::Threads;

/// Writes a text, and answers the status where all of it was written.
pub fn write_text<K: Sink>(sink: &mut K, text: &[u8], status: Status) -> Status
    ensures { WritesOr status text.now (K.written sink.old) (K.written sink.new) (HasRisen (K.faults sink.old) (K.faults sink.new)) result }
{
    match write_all_of(sink, text) {
        Ok(()) => status,
        Err(_) => Status::WriteFault,
    }
}

/// The status where there is no answer.
fn unanswered(why: Unanswered) -> Status
    ensures { IsUnanswered why result }
{
    match why {
        Unanswered::ReadFault => Status::ReadFault,
        Unanswered::NoMemory => Status::NoMemory,
    }
}

/// Lists the chambers of the input that the source has left, on one thread but for the verdicts. At most
/// `table` signatures and `steps` steps of each face's run are allowed; with `certs` the certificates of
/// all full faces follow the listing. It always returns.
pub fn fan_plain<R: Threads + Sync, S: Source, K: Sink>(
    rt: &R,
    alloc: Global,
    table: u32,
    steps: u64,
    certs: bool,
    source: &mut S,
    sink: &mut K,
) -> Status
    requires table { (1 ≤ table) × (table ≤ TABLE) }
    requires steps { (1 ≤ steps) × (steps ≤ STEPS) }
    ensures answers { Ends (over (S.left source.old) (reply_of (Command.Fan 1 table steps certs))) (HasRisen (S.faults source.old) (S.faults source.new)) (HasRisen (K.faults sink.old) (K.faults sink.new))
        (K.written sink.old) (K.written sink.new) result }
    ensures end { result ≡ Status.Done → IsAtEnd (S.left source.new) }
    ensures lost { LosesPrefix (S.left source.old) (S.left source.new) }
{
    match answer_alone(rt, alloc, table, steps, certs, source) {
        Ok(reply) => write_text(sink, &reply.text, reply.status),
        Err(why) => unanswered(why),
    }
}

/// Lists the chambers of the input that the source has left, as [`fan_plain`] does, by 1 to 64 workers that
/// cross walls over one table. Each enters the signatures that it takes by the gate. The text that is
/// written is the same for every number of workers and whatever the threads do. It may wait.
pub fn fan_crew<R: Threads + Wait + Sync, S: Source, K: Sink, T: Gate + Sync>(
    rt: &R,
    alloc: Global,
    workers: u32,
    table: u32,
    steps: u64,
    certs: bool,
    gate: &T,
    source: &mut S,
    sink: &mut K,
) -> Status
    requires workers { (1 ≤ workers) × (workers ≤ WORKERS) }
    requires table { (1 ≤ table) × (table ≤ TABLE) }
    requires steps { (1 ≤ steps) × (steps ≤ STEPS) }
    ensures answers { Ends (over (S.left source.old) (reply_of (Command.Fan workers table steps certs))) (HasRisen (S.faults source.old) (S.faults source.new)) (HasRisen (K.faults sink.old) (K.faults sink.new))
        (K.written sink.old) (K.written sink.new) result }
    ensures end { result ≡ Status.Done → IsAtEnd (S.left source.new) }
    ensures lost { LosesPrefix (S.left source.old) (S.left source.new) }
{
    match answer_together(rt, alloc, workers, table, steps, certs, gate, source) {
        Ok(reply) => write_text(sink, &reply.text, reply.status),
        Err(why) => unanswered(why),
    }
}

/// Certifies all full faces of the input that the source has left, with at most `steps` steps of each
/// face's run. It always returns.
pub fn faces_run<R: Threads + Sync, S: Source, K: Sink>(
    rt: &R,
    alloc: Global,
    steps: u64,
    source: &mut S,
    sink: &mut K,
) -> Status
    requires steps { (1 ≤ steps) × (steps ≤ STEPS) }
    ensures answers { Ends (over (S.left source.old) (reply_of (Command.Faces steps))) (HasRisen (S.faults source.old) (S.faults source.new)) (HasRisen (K.faults sink.old) (K.faults sink.new))
        (K.written sink.old) (K.written sink.new) result }
    ensures end { result ≡ Status.Done → IsAtEnd (S.left source.new) }
    ensures lost { LosesPrefix (S.left source.old) (S.left source.new) }
{
    match answer_faces(rt, alloc, steps, source) {
        Ok(reply) => write_text(sink, &reply.text, reply.status),
        Err(why) => unanswered(why),
    }
}

/// Writes all cones of the chambers of the input that the source has left, and whether these form a fan. At
/// most `table` signatures and `steps` steps of each face's run are allowed. It always returns.
pub fn cones_run<R: Threads + Sync, S: Source, K: Sink>(
    rt: &R,
    alloc: Global,
    table: u32,
    steps: u64,
    source: &mut S,
    sink: &mut K,
) -> Status
    requires table { (1 ≤ table) × (table ≤ TABLE) }
    requires steps { (1 ≤ steps) × (steps ≤ STEPS) }
    ensures answers { Ends (over (S.left source.old) (reply_of (Command.AllCones table steps))) (HasRisen (S.faults source.old) (S.faults source.new)) (HasRisen (K.faults sink.old) (K.faults sink.new))
        (K.written sink.old) (K.written sink.new) result }
    ensures end { result ≡ Status.Done → IsAtEnd (S.left source.new) }
    ensures lost { LosesPrefix (S.left source.old) (S.left source.new) }
{
    match answer_cones(rt, alloc, table, steps, source) {
        Ok(reply) => write_text(sink, &reply.text, reply.status),
        Err(why) => unanswered(why),
    }
}

/// Writes where the weights lie that follow the input which the source has left: the cones that hold each, the
/// least face that does, and the chambers. At most `table` signatures and `steps` steps of each face's run are allowed. It always returns.
pub fn locate_run<R: Threads + Sync, S: Source, K: Sink>(
    rt: &R,
    alloc: Global,
    table: u32,
    steps: u64,
    source: &mut S,
    sink: &mut K,
) -> Status
    requires table { (1 ≤ table) × (table ≤ TABLE) }
    requires steps { (1 ≤ steps) × (steps ≤ STEPS) }
    ensures answers { Ends (over (S.left source.old) (reply_of (Command.Locate table steps))) (HasRisen (S.faults source.old) (S.faults source.new)) (HasRisen (K.faults sink.old) (K.faults sink.new))
        (K.written sink.old) (K.written sink.new) result }
    ensures end { result ≡ Status.Done → IsAtEnd (S.left source.new) }
    ensures lost { LosesPrefix (S.left source.old) (S.left source.new) }
{
    match answer_weights(rt, alloc, table, steps, source) {
        Ok(reply) => write_text(sink, &reply.text, reply.status),
        Err(why) => unanswered(why),
    }
}

/// Writes the bunches of the chambers of the input that the source has left, and what is lost and gained behind
/// each wall. At most `table` signatures and `steps` steps of each face's run are allowed. It always returns.
pub fn bunch_run<R: Threads + Sync, S: Source, K: Sink>(
    rt: &R,
    alloc: Global,
    table: u32,
    steps: u64,
    source: &mut S,
    sink: &mut K,
) -> Status
    requires table { (1 ≤ table) × (table ≤ TABLE) }
    requires steps { (1 ≤ steps) × (steps ≤ STEPS) }
    ensures answers { Ends (over (S.left source.old) (reply_of (Command.Bunch table steps))) (HasRisen (S.faults source.old) (S.faults source.new)) (HasRisen (K.faults sink.old) (K.faults sink.new))
        (K.written sink.old) (K.written sink.new) result }
    ensures end { result ≡ Status.Done → IsAtEnd (S.left source.new) }
    ensures lost { LosesPrefix (S.left source.old) (S.left source.new) }
{
    match answer_bunches(rt, alloc, table, steps, source) {
        Ok(reply) => write_text(sink, &reply.text, reply.status),
        Err(why) => unanswered(why),
    }
}

/// Writes the text of a sample; with `run` lists its chambers, with a table of 4,096 signatures and
/// 20,000,000 steps of each face's run, and writes one line of their counts. It always returns.
pub fn make_run<R: Threads + Sync, K: Sink>(
    rt: &R,
    alloc: Global,
    sample: Sample,
    run: bool,
    sink: &mut K,
) -> Status
    requires { IsSampleInRange sample }
    ensures { Ends (reply_of (Command.Make sample run) []) ⊥ (HasRisen (K.faults sink.old) (K.faults sink.new)) (K.written sink.old) (K.written sink.new) result }
{
    match sampled(rt, alloc, sample, run) {
        Ok(reply) => write_text(sink, &reply.text, reply.status),
        Err(_) => Status::NoMemory,
    }
}
