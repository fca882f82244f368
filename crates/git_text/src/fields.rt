//! The lines that begin with a word.
ghost use Rattle.std.specs.Prelude.{◌≡◌, ◌≤◌, IfOk};
ghost use Rattle.git_lines.specs.Views.{line_of, rest_of_text};
ghost use Rattle.git_lines.specs.Reading.{Gives};
ghost use Rattle.git_text.specs.Reading;
ghost use Rattle.git_text.specs.Reading.{form_by, sizes_at};

use git_limits::{COLUMNS, GENERATORS, ROWS};
use git_lines::{Cursor, FormFault, FormKind, Line, Lines};

/// The words of the first line.
#[tactic(auto, unfolding(crate::specs::Reading::header_words))]
fn header_words(line: &Line<'_>) -> Result<(), FormFault>
    ensures { Gives (λ x. tt) result (Rattle.git_text.specs.Reading.header_words line.now.number line.now.text.now) }
{
    let mut words = Cursor::words(line);
    words.word_token(b"gitfan")?;
    words.word_token(b"1")?;
    words.no_token()
}

/// `gitfan 1`. Whatever is wrong is `Header` at the line's first byte.
#[tactic(auto, unfolding(crate::specs::Reading::header_line))]
fn header_line(line: &Line<'_>) -> Result<(), FormFault>
    ensures { Gives (λ x. tt) result (Rattle.git_text.specs.Reading.header_line line.now.number line.now.text.now) }
{
    match header_words(line) {
        Ok(()) => Ok(()),
        Err(_) => Err(FormFault {
            line: line.number,
            column: 1,
            kind: FormKind::Header,
        }),
    }
}

/// `grading K R`.
#[tactic(auto, unfolding(crate::specs::Reading::sizes_line))]
fn sizes_line(line: &Line<'_>) -> Result<(usize, usize), FormFault>
    ensures reads { Gives (λ x. x) result (Rattle.git_text.specs.Reading.sizes_line line.now.number line.now.text.now) }
    ensures some_rows { IfOk result (λ x. 1 ≤ x.0) }
    ensures few_rows { IfOk result (λ x. x.0 ≤ ROWS) }
    ensures some_columns { IfOk result (λ x. 1 ≤ x.1) }
    ensures few_columns { IfOk result (λ x. x.1 ≤ COLUMNS) }
{
    let mut words = Cursor::words(line);
    words.word_token(b"grading")?;
    let k = words.integer_token(1, ROWS as i64)?;
    let r = words.integer_token(1, COLUMNS as i64)?;
    words.no_token()?;
    Ok((k.unsigned_abs() as usize, r.unsigned_abs() as usize))
}

/// `ideal M`.
#[tactic(auto, unfolding(crate::specs::Reading::ideal_line))]
fn ideal_line(line: &Line<'_>) -> Result<usize, FormFault>
    ensures { Gives (λ x. x) result (Rattle.git_text.specs.Reading.ideal_line line.now.number line.now.text.now) }
{
    let mut words = Cursor::words(line);
    words.word_token(b"ideal")?;
    let m = words.integer_token(0, GENERATORS as i64)?;
    words.no_token()?;
    Ok(m.unsigned_abs() as usize)
}

/// `end`.
#[tactic(auto, unfolding(crate::specs::Reading::end_line))]
fn end_line(line: &Line<'_>) -> Result<(), FormFault>
    ensures { Gives (λ x. tt) result (Rattle.git_text.specs.Reading.end_line line.now.number line.now.text.now) }
{
    let mut words = Cursor::words(line);
    words.word_token(b"end")?;
    words.no_token()
}

#[tactic(auto, unfolding(git_lines::specs::Reading::line_by))]
fn header(lines: &mut Lines<'_>) -> Result<(), FormFault>
    ensures { Gives (λ x. (tt, rest_of_text lines.new)) result (form_by Rattle.git_text.specs.Reading.header_line (rest_of_text lines.old)) }
{
    let line = lines.next_line()?;
    header_line(&line)
}

#[tactic(auto, unfolding(git_lines::specs::Reading::line_by))]
fn sizes(lines: &mut Lines<'_>) -> Result<(usize, usize), FormFault>
    ensures reads { Gives (λ x. (x, rest_of_text lines.new)) result (form_by Rattle.git_text.specs.Reading.sizes_line (rest_of_text lines.old)) }
    ensures some_rows { IfOk result (λ x. 1 ≤ x.0) }
    ensures few_rows { IfOk result (λ x. x.0 ≤ ROWS) }
    ensures some_columns { IfOk result (λ x. 1 ≤ x.1) }
    ensures few_columns { IfOk result (λ x. x.1 ≤ COLUMNS) }
{
    let line = lines.next_line()?;
    sizes_line(&line)
}

/// The two lines before the rows: the number of rows, from 1 to 6, and of columns, from 1 to 16.
#[tactic(auto, unfolding(crate::specs::Reading::sizes_at))]
pub(crate) fn header_and_sizes(lines: &mut Lines<'_>) -> Result<(usize, usize), FormFault>
    ensures reads { Gives (λ x. (x, rest_of_text lines.new)) result (sizes_at (rest_of_text lines.old)) }
    ensures some_rows { IfOk result (λ x. 1 ≤ x.0) }
    ensures few_rows { IfOk result (λ x. x.0 ≤ ROWS) }
    ensures some_columns { IfOk result (λ x. 1 ≤ x.1) }
    ensures few_columns { IfOk result (λ x. x.1 ≤ COLUMNS) }
{
    header(lines)?;
    sizes(lines)
}

/// The line of the number of generators.
#[tactic(auto, unfolding(git_lines::specs::Reading::line_by))]
pub(crate) fn ideal(lines: &mut Lines<'_>) -> Result<usize, FormFault>
    ensures { Gives (λ x. (x, rest_of_text lines.new)) result (form_by Rattle.git_text.specs.Reading.ideal_line (rest_of_text lines.old)) }
{
    let line = lines.next_line()?;
    ideal_line(&line)
}

/// The last line.
#[tactic(auto, unfolding(git_lines::specs::Reading::line_by))]
pub(crate) fn end(lines: &mut Lines<'_>) -> Result<(), FormFault>
    ensures { Gives (λ x. (tt, rest_of_text lines.new)) result (form_by Rattle.git_text.specs.Reading.end_line (rest_of_text lines.old)) }
{
    let line = lines.next_line()?;
    end_line(&line)
}
