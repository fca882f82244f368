//! A run over what the system gave for the command line.
ghost use Rattle.std.specs.Prelude.{◌≡◌, ◌≢◌, IfOk, IfErr, map, string_bytes};
ghost use Rattle.std.specs.Process.{exit_status};
ghost use Rattle.std.specs.IoError.{error_kind};
ghost use Rattle.std.specs.declared.io.ErrorKind.{ErrorKind};
ghost use Rattle.git_base.specs.Faults.{HasRisen};
ghost use Rattle.git_base.specs.Status.{code_of};
ghost use Rattle.git_base.specs.declared.status.Status.{Status};
ghost use Rattle.git_words.specs.Words.{words_of};
ghost use Rattle.git_answers.specs.Ends.{over, Ends, WritesOr};
ghost use Rattle.git_top.specs.Run.{reply_to, usage_text};

use git_base::{Sink, Source, Status};
use git_crew::Gate;
use git_top::{gitfan, refuse_usage};
use std::alloc::Global;
use std::io;
use std::marker::Sync;
use std::process::ExitCode;
use std::sync::Wait;
use std::thread::Threads;

/// The code of a status.
pub fn exit_code(status: Status) -> ExitCode
    ensures { exit_status result ≡ code_of status }
{
    ExitCode::from(status.code())
}

/// Runs the words, and ends with the status of their answer. The words are UTF-8.
fn answer<R: Threads + Wait + Sync, S: Source, K: Sink, T: Gate + Sync>(
    rt: &R,
    alloc: Global,
    owned: &[String],
    gate: &T,
    source: &mut S,
    sink: &mut K,
) -> Status
    ensures { Ends (over (S.left source.old) (reply_to (map string_bytes owned.now))) (HasRisen (S.faults source.old) (S.faults source.new)) (HasRisen (K.faults sink.old) (K.faults sink.new))
        (K.written sink.old) (K.written sink.new) result }
{
    let mut words = Vec::new(alloc);
    for word in owned {
        if words.push(word.as_str()).is_err() {
            return Status::NoMemory;
        }
    }
    gitfan(rt, alloc, &words, gate, source, sink)
}

/// Answers what the system gave for the words of the command line. Where it gave none, memory ran out, or a word
/// isn't UTF-8 and so no command.
pub fn run<R: Threads + Wait + Sync, S: Source, K: Sink, T: Gate + Sync>(
    rt: &R,
    alloc: Global,
    given: io::Result<Vec<String>>,
    gate: &T,
    source: &mut S,
    sink: &mut K,
) -> Status
    ensures words { IfOk given (λ words. Ends (over (S.left source.old) (reply_to (map string_bytes words.items))) (HasRisen (S.faults source.old) (S.faults source.new)) (HasRisen (K.faults sink.old) (K.faults sink.new))
        (K.written sink.old) (K.written sink.new) result) }
    ensures starved { IfErr given (λ e. error_kind e ≡ ErrorKind.OutOfMemory → (result ≡ Status.NoMemory) × (sink.new ≡ sink.old)) }
    ensures other { IfErr given (λ e. error_kind e ≢ ErrorKind.OutOfMemory
        → WritesOr Status.Usage usage_text (K.written sink.old) (K.written sink.new) (HasRisen (K.faults sink.old) (K.faults sink.new)) result) }
    ensures unread { IfErr given (λ _. source.new ≡ source.old) }
{
    match given {
        Ok(words) => answer(rt, alloc, &words, gate, source, sink),
        Err(error) if error.kind() == io::ErrorKind::OutOfMemory => Status::NoMemory,
        Err(_) => refuse_usage(sink),
    }
}
