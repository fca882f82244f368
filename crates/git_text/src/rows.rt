//! The rows of a matrix.
ghost use Rattle.std.specs.Prelude.{◌≡◌, ◌-◌, pos};
ghost use Rattle.std.proofs.Math.IntN.{neg_ℤ};
ghost use Rattle.git_lines.specs.Views.{line_of, rest_of_text};
ghost use Rattle.git_lines.specs.Reading.{times, integer_token};
ghost use Rattle.git_text.specs.Reading;
ghost use Rattle.git_text.specs.Faults.{GivesUnlessFull, as_input};
ghost use Rattle.git_text.specs.Reading.{next_by, rows_at};
ghost use Rattle.git_text.specs.Views.{row_of, rows_of};

use crate::fault::InputFault;
use git_limits::COLUMN_ENTRY;
use git_lines::{Cursor, Line, Lines};
use std::alloc::Global;

/// The least entry of a matrix.
const LEAST: i64 = -(COLUMN_ENTRY as i64);

/// The greatest entry of a matrix.
const MOST: i64 = COLUMN_ENTRY as i64;

/// A row of a matrix.
#[derive(Drop)]
pub(crate) struct Row {
    pub(crate) entries: Vec<i64>,
}

/// The next `r` integers from -1000 to 1000.
fn entries(alloc: Global, words: &mut Cursor<'_>, r: usize) -> Result<Vec<i64>, InputFault>
    ensures { GivesUnlessFull (λ v. (v.items, words.new)) result (as_input (times (integer_token (neg_ℤ (pos COLUMN_ENTRY)) (pos COLUMN_ENTRY)) r words.old)) }
{
    let mut entries = Vec::with_capacity(alloc, r)?;
    for _ in 0..r {
        let entry = words.integer_token(LEAST, MOST)?;
        entries.push(entry)?;
    }
    Ok(entries)
}

/// A row of `r` entries.
#[tactic(auto, unfolding(crate::specs::Reading::row_line))]
fn row_line(alloc: Global, line: &Line<'_>, r: usize) -> Result<Vec<i64>, InputFault>
    ensures { GivesUnlessFull (λ v. v.items) result (Rattle.git_text.specs.Reading.row_line r line.now.number line.now.text.now) }
{
    let mut words = Cursor::words(line);
    let entries = entries(alloc, &mut words, r)?;
    words.no_token()?;
    Ok(entries)
}

#[tactic(auto, unfolding(git_lines::specs::Reading::line_by))]
fn next_row(alloc: Global, lines: &mut Lines<'_>, r: usize) -> Result<Row, InputFault>
    ensures { GivesUnlessFull (λ x. (row_of x, rest_of_text lines.new)) result (next_by (Rattle.git_text.specs.Reading.row_line r) (rest_of_text lines.old)) }
{
    let line = lines.next_line()?;
    let entries = row_line(alloc, &line, r)?;
    Ok(Row { entries })
}

/// The next `k` lines as rows of `r` entries each.
pub(crate) fn matrix_rows(
    alloc: Global,
    lines: &mut Lines<'_>,
    k: usize,
    r: usize,
) -> Result<Vec<Row>, InputFault>
    ensures { GivesUnlessFull (λ v. (rows_of v.items, rest_of_text lines.new)) result (rows_at k r (rest_of_text lines.old)) }
{
    let mut rows = Vec::with_capacity(alloc, k)?;
    for _ in 0..k {
        let row = next_row(alloc, lines, r)?;
        rows.push(row)?;
    }
    Ok(rows)
}
