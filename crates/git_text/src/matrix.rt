//! The lines up to the last row of the matrix.
ghost use Rattle.std.specs.Prelude.{◌≡◌, ◌≤◌, ◌-◌, IfOk};
ghost use Rattle.git_grading.specs.Gradings.{IsMatrix};
ghost use Rattle.git_lines.specs.Views.{rest_of_text};
ghost use Rattle.git_text.specs.Faults.{FitsUnlessFull, GivesUnlessFull};
ghost use Rattle.git_text.specs.Reading.{columns_at, JudgesMatrix, ReadsGrading};

use crate::columns::columns;
use crate::fault::{BadKind, InputFault};
use crate::fields::header_and_sizes;
use crate::rows::matrix_rows;
use git_grading::{Grading, GradingFault};
use git_ints::IVec;
use git_limits::{COLUMNS, ROWS};
use git_lines::Lines;
use std::alloc::Global;

/// A fault of the matrix, at the first byte of its last row.
fn bad_matrix(next: u32, kind: BadKind) -> InputFault
    ensures { result ≡ InputFault.Bad (next - 1) 1 kind }
{
    InputFault::Bad {
        line: next.saturating_sub(1),
        column: 1,
        kind,
    }
}

/// The grading with these columns, whose last row is the line before this one. Rank is judged before pointedness.
fn judged(alloc: Global, k: usize, columns: Vec<IVec>, next: u32) -> Result<Grading, InputFault>
    requires { IsMatrix k columns.items }
    ensures { FitsUnlessFull (λ g. g) result (JudgesMatrix (next - 1) (record { k = k; columns = columns.items })) }
{
    match Grading::of(alloc, k, columns) {
        Ok(grading) => Ok(grading),
        Err(GradingFault::NoMemory) => Err(InputFault::NoMemory),
        Err(GradingFault::Rank) => Err(bad_matrix(next, BadKind::Rank)),
        Err(GradingFault::Pointed) => Err(bad_matrix(next, BadKind::Pointed)),
    }
}

/// The columns of the next `k` lines, of `r` entries each.
#[tactic(auto, unfolding(crate::specs::Reading::columns_at))]
fn columns_of_rows(
    alloc: Global,
    lines: &mut Lines<'_>,
    k: usize,
    r: usize,
) -> Result<Vec<IVec>, InputFault>
    requires some_rows { 1 ≤ k }
    requires few_rows { k ≤ ROWS }
    requires some_columns { 1 ≤ r }
    requires few_columns { r ≤ COLUMNS }
    ensures reads { GivesUnlessFull (λ v. (v.items, rest_of_text lines.new)) result (columns_at k r (rest_of_text lines.old)) }
    ensures matrix { IfOk result (λ v. IsMatrix k v.items) }
{
    let rows = matrix_rows(alloc, lines, k, r)?;
    Ok(columns(alloc, &rows, r)?)
}

/// The grading of the lines up to the last row.
pub(crate) fn grading(alloc: Global, lines: &mut Lines<'_>) -> Result<Grading, InputFault>
    ensures { FitsUnlessFull (λ g. (g, rest_of_text lines.new)) result (ReadsGrading (rest_of_text lines.old)) }
{
    let (k, r) = header_and_sizes(lines)?;
    let columns = columns_of_rows(alloc, lines, k, r)?;
    judged(alloc, k, columns, lines.line)
}
