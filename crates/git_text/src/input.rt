//! The whole text.
ghost use Rattle.std.specs.Prelude.{◌≡◌, ◌<◌, ◌≤◌, ◌-◌, ◌^◌, ◌⊎◌, ℕ, length, IfOk, IsErrOf, MatchResult};
ghost use Rattle.git_lines.specs.Views.{rest_of_text};
ghost use Rattle.git_text.specs.declared.fault.BadKind.{BadKind};
ghost use Rattle.git_text.specs.Faults.{GivesUnlessFull, FitsUnlessFull};
ghost use Rattle.git_input.specs.Inputs.{InputValue};
ghost use Rattle.git_text.specs.Grammar.{IsInput};
ghost use Rattle.git_text.specs.Fronts.{IsFront, IsFirstFrontFault};
ghost use Rattle.git_text.specs.Reading.{rest_at, ReadsFront, Reads, IsFirstFault, variables_in};

use crate::fault::InputFault;
use crate::fields::{end, header_and_sizes};
use crate::generators::generators;
use crate::matrix::grading;
use git_grading::Grading;
use git_input::Input;
use git_limits::COLUMNS;
use git_lines::Lines;
use std::alloc::Global;

/// The input with this grading, of the lines from the number of generators to `end`.
#[tactic(auto, unfolding(crate::specs::Reading::rest_at))]
fn rest(alloc: Global, lines: &mut Lines<'_>, grading: Grading) -> Result<Input, InputFault>
    ensures { GivesUnlessFull (λ x. (x, rest_of_text lines.new)) result (rest_at grading (rest_of_text lines.old)) }
{
    let generators = generators(alloc, lines, &grading)?;
    end(lines)?;
    Ok(Input {
        grading,
        generators,
    })
}

/// The input of the lines up to `end`, or the first fault.
fn front(alloc: Global, lines: &mut Lines<'_>) -> Result<Input, InputFault>
    ensures { FitsUnlessFull (λ x. (x, rest_of_text lines.new)) result (ReadsFront (rest_of_text lines.old)) }
{
    let grading = grading(alloc, lines)?;
    rest(alloc, lines, grading)
}

/// The input, or the first fault.
fn read_lines(alloc: Global, bytes: &[u8]) -> Result<Input, InputFault>
    requires { length bytes.now < 2 ^ 32 - 1 }
    ensures { FitsUnlessFull (λ x. x) result (Reads bytes.now) }
{
    let mut lines = Lines::new(bytes);
    let input = front(alloc, &mut lines)?;
    lines.no_line()?;
    Ok(input)
}

/// The number of variables that the second line of a text announces, or 0 where the first two lines are not right.
///
/// `bytes` are fewer than 2^32 - 1.
pub fn announced_variables(bytes: &[u8]) -> usize
    requires { length bytes.now < 2 ^ 32 - 1 }
    ensures value { result ≡ variables_in bytes.now }
    ensures few { result ≤ COLUMNS }
{
    let mut lines = Lines::new(bytes);
    match header_and_sizes(&mut lines) {
        Ok(sizes) => sizes.1,
        Err(_) => 0,
    }
}

/// The input that the bytes are.
///
/// `bytes` are fewer than 2^32 - 1. `Bad` where they are no input: their first fault, read from left to right, with its line
/// and its column. `NoMemory` where memory runs out.
pub fn read_input(alloc: Global, bytes: &[u8]) -> Result<Input, InputFault>
    requires { length bytes.now < 2 ^ 32 - 1 }
    ensures found { IfOk result (λ x. IsInput bytes.now x) }
    ensures only { (v : InputValue) → IsInput bytes.now v → MatchResult result (λ x. x ≡ v) (λ e. e ≡ InputFault.NoMemory) }
    ensures fault { (line column : ℕ) (kind : BadKind) → IsErrOf result (InputFault.Bad line column kind) → IsFirstFault bytes.now line column kind }
    ensures first { (line column : ℕ) (kind : BadKind) → IsFirstFault bytes.now line column kind
        → MatchResult result (λ x. ⊥) (λ e. (e ≡ InputFault.Bad line column kind) ⊎ (e ≡ InputFault.NoMemory)) }
{
    read_lines(alloc, bytes)
}

/// The input at the head of the bytes, through its line `end`, and how many bytes it takes. What follows that line is not
/// looked at.
///
/// `bytes` are fewer than 2^32 - 1. `Bad` where no input is at the head: the first fault, read from left to right, which is
/// that of `read_input`. `NoMemory` where memory runs out.
pub fn read_input_front(alloc: Global, bytes: &[u8]) -> Result<(Input, usize), InputFault>
    requires { length bytes.now < 2 ^ 32 - 1 }
    ensures found { IfOk result (λ x. IsFront bytes.now x.0 x.1) }
    ensures only { (v : InputValue) (used : ℕ) → IsFront bytes.now v used → MatchResult result (λ x. (x.0 ≡ v) × (x.1 ≡ used)) (λ e. e ≡ InputFault.NoMemory) }
    ensures fault { (line column : ℕ) (kind : BadKind) → IsErrOf result (InputFault.Bad line column kind) → IsFirstFrontFault bytes.now line column kind }
    ensures first { (line column : ℕ) (kind : BadKind) → IsFirstFrontFault bytes.now line column kind
        → MatchResult result (λ x. ⊥) (λ e. (e ≡ InputFault.Bad line column kind) ⊎ (e ≡ InputFault.NoMemory)) }
{
    let mut lines = Lines::new(bytes);
    let input = front(alloc, &mut lines)?;
    let left = lines.bytes.len() - lines.at;
    Ok((input, bytes.len().saturating_sub(left)))
}
