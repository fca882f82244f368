//! What a source has left, as an input, or the answer to its first fault.
ghost use Rattle.std.specs.Prelude.{◌≡◌, ◌⊎◌, ◌≤◌, ℕ, length, IfOk, IsErrOf};
ghost use Rattle.std.specs.Io.KnownBytes.{IsAtEnd};
ghost use Rattle.git_base.specs.Faults.{HasRisen};
ghost use Rattle.git_base.specs.Prefixes.{LosesPrefix};
ghost use Rattle.git_base.specs.declared.status.Status.{Status};
ghost use Rattle.git_replies.specs.Refusals.{fault_text};
ghost use Rattle.git_text.specs.Reading.{IsFirstFault};
ghost use Rattle.git_text.specs.declared.fault.BadKind.{BadKind};
ghost use Rattle.git_text.specs.declared.fault.InputFault.{InputFault};
ghost use Rattle.git_replies.specs.declared.reply.Unanswered.{Unanswered};
ghost use Rattle.git_replies.specs.Readings.{IsReading, IsRefusal, IsRefused, IsWhole};

use crate::refusal::refusal;
use crate::reply::{Reply, Unanswered};
use git_base::{NoMemory, ReadError, Source, Status, read_all};
use git_input::Input;
use git_limits::{COLUMNS, INPUT_BYTES};
use git_text::{BadKind, InputFault, announced_variables, read_input};
use std::alloc::Global;

/// The input that was read, or the answer to bytes that are none.
#[derive(Drop)]
pub enum Reading {
    Input(Input),
    Refused(Reply),
}

/// The answer to a fault of the bytes: its line, with `r` exponents of monomials, at most sixteen.
pub fn input_refusal(
    alloc: Global,
    r: usize,
    line: u32,
    column: u32,
    kind: &BadKind,
) -> Result<Reply, NoMemory>
    requires { r ≤ COLUMNS }
    ensures { IfOk result (λ a. (a.status ≡ Status.BadInput) × (a.text.items ≡ fault_text r line column kind.now)) }
{
    let text = refusal(alloc, r, line, column, kind)?;
    Ok(Reply {
        status: Status::BadInput,
        text,
    })
}

/// The answer to bytes that are no input.
fn answer_to_fault(alloc: Global, bytes: &[u8], fault: InputFault) -> Result<Reply, NoMemory>
    requires few { length bytes.now ≤ INPUT_BYTES }
    requires first { (line column : ℕ) → (kind : BadKind) → fault ≡ InputFault.Bad line column kind → IsFirstFault bytes.now line column kind }
    ensures { IfOk result (IsRefusal bytes.now) }
{
    match fault {
        InputFault::NoMemory => Err(NoMemory),
        InputFault::Bad { line, column, kind } => {
            input_refusal(alloc, announced_variables(bytes), line, column, &kind)
        }
    }
}

/// The input that the bytes are, or the answer to them.
fn read_bytes(alloc: Global, bytes: &[u8]) -> Result<Reading, NoMemory>
    requires few { length bytes.now ≤ INPUT_BYTES }
    ensures { IfOk result (IsWhole bytes.now) }
{
    match read_input(alloc, bytes) {
        Ok(input) => Ok(Reading::Input(input)),
        Err(fault) => Ok(Reading::Refused(answer_to_fault(alloc, bytes, fault)?)),
    }
}

/// The input that the source has left, or the answer to its bytes.
pub fn read<S: Source>(alloc: Global, source: &mut S) -> Result<Reading, Unanswered>
    ensures reading { IfOk result (IsReading (S.left source.old)) }
    ensures end { IfOk result (λ r. IsAtEnd (S.left source.new) ⊎ IsRefused r) }
    ensures read { IsErrOf result Unanswered.ReadFault → HasRisen (S.faults source.old) (S.faults source.new) }
    ensures lost { LosesPrefix (S.left source.old) (S.left source.new) }
{
    match read_all(alloc, source, INPUT_BYTES) {
        Ok(bytes) => Ok(read_bytes(alloc, &bytes)?),
        Err(ReadError::TooLong) => {
            let reply = input_refusal(alloc, 0, 0, 0, &BadKind::TooLong)?;
            Ok(Reading::Refused(reply))
        }
        Err(ReadError::ReadFault) => Err(Unanswered::ReadFault),
        Err(ReadError::NoMemory) => Err(Unanswered::NoMemory),
    }
}
