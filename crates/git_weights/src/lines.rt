//! The lines of a text of weights.
ghost use Rattle.std.specs.Prelude.{◌≡◌, ◌≤◌};
ghost use Rattle.git_lines.specs.Reading.{Gives};
ghost use Rattle.git_lines.specs.Views.{line_of, rest_of_text};
ghost use Rattle.git_text.specs.Reading.{form_by, end_line as end_of};
ghost use Rattle.git_weights.specs.Reading;
ghost use Rattle.git_weights.specs.Reading.{entries_at};

use crate::limits::{ENTRY_HIGH, ENTRY_LOW, WEIGHTS};
use git_ints::IVec;
use git_limits::ROWS;
use git_lines::{Cursor, FormFault, Line, Lines};

/// `weights W`.
#[tactic(auto, unfolding(crate::specs::Reading::count_line))]
fn count_line(line: &Line<'_>) -> Result<u32, FormFault>
    ensures { Gives (λ x. x) result (Rattle.git_weights.specs.Reading.count_line line.now.number line.now.text.now) }
{
    let mut words = Cursor::words(line);
    words.word_token(b"weights")?;
    let n = words.integer_token(1, i64::from(WEIGHTS))?;
    words.no_token()?;
    Ok(n.unsigned_abs() as u32)
}

/// The next `k` integers as a weight.
fn entries(words: &mut Cursor<'_>, k: usize) -> Result<IVec, FormFault>
    requires some { 1 ≤ k }
    requires few { k ≤ ROWS }
    ensures { Gives (λ v. (v, words.new)) result (entries_at k words.old) }
{
    let mut all = [0i128; ROWS];
    for i in 0..k {
        let entry = words.integer_token(ENTRY_LOW, ENTRY_HIGH)?;
        all[i] = i128::from(entry);
    }
    Ok(IVec::of(&all[..k]))
}

/// A weight.
#[tactic(auto, unfolding(crate::specs::Reading::weight_line))]
fn weight_line(line: &Line<'_>, k: usize) -> Result<IVec, FormFault>
    requires some { 1 ≤ k }
    requires few { k ≤ ROWS }
    ensures { Gives (λ v. v) result (Rattle.git_weights.specs.Reading.weight_line k line.now.number line.now.text.now) }
{
    let mut words = Cursor::words(line);
    let v = entries(&mut words, k)?;
    words.no_token()?;
    Ok(v)
}

/// `end`.
#[tactic(auto, unfolding(git_text::specs::Reading::end_line))]
fn end_line(line: &Line<'_>) -> Result<(), FormFault>
    ensures { Gives (λ x. tt) result (end_of line.now.number line.now.text.now) }
{
    let mut words = Cursor::words(line);
    words.word_token(b"end")?;
    words.no_token()
}

/// The line of the number of weights.
#[tactic(auto, unfolding(git_lines::specs::Reading::line_by))]
pub(crate) fn count(lines: &mut Lines<'_>) -> Result<u32, FormFault>
    ensures { Gives (λ x. (x, rest_of_text lines.new)) result (form_by Rattle.git_weights.specs.Reading.count_line (rest_of_text lines.old)) }
{
    let line = lines.next_line()?;
    count_line(&line)
}

/// The line of a weight.
#[tactic(auto, unfolding(git_lines::specs::Reading::line_by))]
pub(crate) fn weight(lines: &mut Lines<'_>, k: usize) -> Result<IVec, FormFault>
    requires some { 1 ≤ k }
    requires few { k ≤ ROWS }
    ensures { Gives (λ v. (v, rest_of_text lines.new)) result (form_by (Rattle.git_weights.specs.Reading.weight_line k) (rest_of_text lines.old)) }
{
    let line = lines.next_line()?;
    weight_line(&line, k)
}

/// The last line.
#[tactic(auto, unfolding(git_lines::specs::Reading::line_by))]
pub(crate) fn end(lines: &mut Lines<'_>) -> Result<(), FormFault>
    ensures { Gives (λ x. (tt, rest_of_text lines.new)) result (form_by end_of (rest_of_text lines.old)) }
{
    let line = lines.next_line()?;
    end_line(&line)
}
