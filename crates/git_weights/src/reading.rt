//! The reader.
ghost use Rattle.std.specs.Prelude.{◌≡◌, ◌⊎◌, ◌<◌, ◌≤◌, ◌-◌, ◌^◌, ℕ, List, length, IfOk, IsErrOf, MatchResult};
ghost use Rattle.git_defs.specs.Vectors.{Vector};
ghost use Rattle.git_lines.specs.Views.{rest_of_text};
ghost use Rattle.git_strictlines.specs.Faults.{GivesUnlessFull};
ghost use Rattle.git_text.specs.declared.fault.BadKind.{BadKind};
ghost use Rattle.git_weights.specs.Grammar.{IsWeights};
ghost use Rattle.git_weights.specs.Reading.{weights_at, lines_at, reading, IsFirstFault};

use crate::fault::WeightsFault;
use crate::lines::{count, end, weight};
use git_ints::IVec;
use git_limits::ROWS;
use git_lines::Lines;
use git_strictlines::ReadFault;
use std::alloc::Global;

/// The next lines as weights, so many.
fn weights(
    alloc: Global,
    lines: &mut Lines<'_>,
    k: usize,
    count: u32,
) -> Result<Vec<IVec>, ReadFault>
    requires some { 1 ≤ k }
    requires few { k ≤ ROWS }
    ensures { GivesUnlessFull (λ v. (v.items, rest_of_text lines.new)) result (weights_at k count (rest_of_text lines.old)) }
{
    let mut out = Vec::with_capacity(alloc, count as usize)?;
    for _ in 0..count {
        let next = weight(lines, k)?;
        out.push(next)?;
    }
    Ok(out)
}

/// The lines up to `end`.
#[tactic(auto, unfolding(crate::specs::Reading::lines_at))]
fn up_to_end(alloc: Global, lines: &mut Lines<'_>, k: usize) -> Result<Vec<IVec>, ReadFault>
    requires some { 1 ≤ k }
    requires few { k ≤ ROWS }
    ensures { GivesUnlessFull (λ v. (v.items, rest_of_text lines.new)) result (lines_at k (rest_of_text lines.old)) }
{
    let count = count(lines)?;
    let weights = weights(alloc, lines, k, count)?;
    end(lines)?;
    Ok(weights)
}

/// The whole text.
#[tactic(auto, unfolding(crate::specs::Reading::whole_at))]
fn read_lines(alloc: Global, k: usize, bytes: &[u8]) -> Result<Vec<IVec>, ReadFault>
    requires some { 1 ≤ k }
    requires few { k ≤ ROWS }
    requires short { length bytes.now < 2 ^ 32 - 1 }
    ensures { GivesUnlessFull (λ v. v.items) result (reading k bytes.now) }
{
    let mut lines = Lines::new(bytes);
    let weights = up_to_end(alloc, &mut lines, k)?;
    lines.no_line()?;
    Ok(weights)
}

/// The weights of which the bytes are the text: `weights W`, W lines of `k` integers, and `end`. W is from 1 to 1000,
/// the entries are at most 2^40 in absolute value.
///
/// `k` is from 1 to 6, `bytes` are fewer than 2^32 - 1. `Bad` where they are no such text: their first fault, read from
/// left to right, with its line and its column. `NoMemory` where memory runs out.
pub fn read_weights(alloc: Global, k: u32, bytes: &[u8]) -> Result<Vec<IVec>, WeightsFault>
    requires some { 1 ≤ k }
    requires few { k ≤ ROWS }
    requires short { length bytes.now < 2 ^ 32 - 1 }
    ensures found { IfOk result (λ v. IsWeights k bytes.now v.items) }
    ensures only { (vs : List Vector) → IsWeights k bytes.now vs → MatchResult result (λ v. v.items ≡ vs) (λ e. e ≡ WeightsFault.NoMemory) }
    ensures fault { (line column : ℕ) (kind : BadKind) → IsErrOf result (WeightsFault.Bad line column kind) → IsFirstFault k bytes.now line column kind }
    ensures first { (line column : ℕ) (kind : BadKind) → IsFirstFault k bytes.now line column kind
        → MatchResult result (λ v. ⊥) (λ e. (e ≡ WeightsFault.Bad line column kind) ⊎ (e ≡ WeightsFault.NoMemory)) }
{
    let weights = read_lines(alloc, k as usize, bytes)?;
    Ok(weights)
}
