//! The reader: an input and its weights, or the answer to the first fault.
ghost use Rattle.std.specs.Prelude.{◌≡◌, ◌⊎◌, ◌≤◌, ℕ, length, drop, IfOk, IsErrOf};
ghost use Rattle.std.specs.Io.KnownBytes.{IsAtEnd};
ghost use Rattle.git_base.specs.Faults.{HasRisen};
ghost use Rattle.git_base.specs.Prefixes.{LosesPrefix};
ghost use Rattle.git_base.specs.declared.status.Status.TheVariants.{BadInput};
ghost use Rattle.git_input.specs.Inputs.{InputValue};
ghost use Rattle.git_text.specs.Fronts.{IsFront, IsFirstFrontFault};
ghost use Rattle.git_text.specs.declared.fault.BadKind.{BadKind};
ghost use Rattle.git_text.specs.declared.fault.InputFault.{InputFault};
ghost use Rattle.git_weights.specs.Reading.{IsFirstFault};
ghost use Rattle.git_weights.specs.declared.fault.WeightsFault.{WeightsFault};
ghost use Rattle.git_replies.specs.Refusals.{long_text};
ghost use Rattle.git_replies.specs.declared.reply.Unanswered.{Unanswered};
ghost use Rattle.git_weighted.specs.Readings.{HasShortWeights, IsReading, IsRefusal, IsRefused, IsWhole};

use crate::refusal::weights_refusal;
use crate::text::Weighted;
use git_base::{NoMemory, ReadError, Source, read_all};
use git_checktext::count_lines;
use git_input::Input;
use git_limits::INPUT_BYTES;
use git_replies::{Reply, Unanswered, input_refusal};
use git_text::{BadKind, InputFault, announced_variables, read_input_front};
use git_weights::{WeightsFault, read_weights};
use std::alloc::Global;

/// The input and the weights that were read, or the answer to bytes that are none.
#[derive(Drop)]
pub enum WeightedReading {
    Text(Weighted),
    Refused(Reply),
}

/// The answer to too many bytes.
fn long_refusal(alloc: Global) -> Result<Reply, NoMemory>
    ensures { IfOk result (λ a. (a.status ≡ BadInput) × (a.text.items ≡ long_text)) }
{
    input_refusal(alloc, 0, 0, 0, &BadKind::TooLong)
}

/// The answer to bytes at whose head no input stands.
fn input_fault(alloc: Global, bytes: &[u8], fault: InputFault) -> Result<Reply, NoMemory>
    requires few { length bytes.now ≤ INPUT_BYTES }
    requires first { (line column : ℕ) → (kind : BadKind) → fault ≡ InputFault.Bad line column kind → IsFirstFrontFault bytes.now line column kind }
    ensures { IfOk result (IsRefusal bytes.now) }
{
    match fault {
        InputFault::NoMemory => Err(NoMemory),
        InputFault::Bad { line, column, kind } => {
            input_refusal(alloc, announced_variables(bytes), line, column, &kind)
        }
    }
}

/// The answer to a fault of what follows the input, which takes so many bytes.
fn weights_fault(
    alloc: Global,
    bytes: &[u8],
    used: usize,
    k: u32,
    fault: WeightsFault,
) -> Result<Reply, NoMemory>
    requires few { length bytes.now ≤ INPUT_BYTES }
    requires within { used ≤ length bytes.now }
    requires front { (v : InputValue) × IsFront bytes.now v used × (k ≡ v.degrees.k) }
    requires first { (line column : ℕ) → (kind : BadKind) → fault ≡ WeightsFault.Bad line column kind → IsFirstFault k (drop used bytes.now) line column kind }
    ensures { IfOk result (IsRefusal bytes.now) }
{
    match fault {
        WeightsFault::NoMemory => Err(NoMemory),
        WeightsFault::Bad { line, column, kind } => {
            let before = count_lines(&bytes[..used]);
            weights_refusal(alloc, before + line as u64, column, &kind)
        }
    }
}

/// The weights after this input, which takes so many bytes, or the answer to their first fault.
fn after_input(
    alloc: Global,
    bytes: &[u8],
    input: Input,
    used: usize,
) -> Result<WeightedReading, NoMemory>
    requires few { length bytes.now ≤ INPUT_BYTES }
    requires front { IsFront bytes.now input used }
    ensures whole { IfOk result (IsWhole bytes.now) }
    ensures short { IfOk result HasShortWeights }
{
    let k = input.grading.k() as u32;
    match read_weights(alloc, k, &bytes[used..]) {
        Ok(weights) => Ok(WeightedReading::Text(Weighted { input, weights })),
        Err(fault) => {
            let reply = weights_fault(alloc, bytes, used, k, fault)?;
            Ok(WeightedReading::Refused(reply))
        }
    }
}

/// The input and the weights that the bytes are, or the answer to them: too many bytes, or the first fault of the input
/// at their head, or of the weights after it.
pub fn read_weighted(alloc: Global, bytes: &[u8]) -> Result<WeightedReading, NoMemory>
    ensures whole { IfOk result (IsWhole bytes.now) }
    ensures short { IfOk result HasShortWeights }
{
    if bytes.len() > INPUT_BYTES {
        return Ok(WeightedReading::Refused(long_refusal(alloc)?));
    }
    match read_input_front(alloc, bytes) {
        Ok((input, used)) => after_input(alloc, bytes, input, used),
        Err(fault) => Ok(WeightedReading::Refused(input_fault(alloc, bytes, fault)?)),
    }
}

/// The input and the weights that the source has left, or the answer to its bytes.
pub fn read<S: Source>(alloc: Global, source: &mut S) -> Result<WeightedReading, Unanswered>
    ensures reading { IfOk result (IsReading (S.left source.old)) }
    ensures short { IfOk result HasShortWeights }
    ensures end { IfOk result (λ r. IsAtEnd (S.left source.new) ⊎ IsRefused r) }
    ensures read { IsErrOf result Unanswered.ReadFault → HasRisen (S.faults source.old) (S.faults source.new) }
    ensures lost { LosesPrefix (S.left source.old) (S.left source.new) }
{
    match read_all(alloc, source, INPUT_BYTES) {
        Ok(bytes) => Ok(read_weighted(alloc, &bytes)?),
        Err(ReadError::TooLong) => Ok(WeightedReading::Refused(long_refusal(alloc)?)),
        Err(ReadError::ReadFault) => Err(Unanswered::ReadFault),
        Err(ReadError::NoMemory) => Err(Unanswered::NoMemory),
    }
}
