//! The lines that all texts with one spelling have, and a look at the next line's first word.
ghost use Rattle.std.specs.Prelude.{◌≡◌, ◌≤◌, ◌<◌, ◌^◌, ◌≤ℤ◌, pos, IfOk};
ghost use Rattle.git_lines.specs.Reading.{Gives};
ghost use Rattle.git_lines.specs.Views.{line_of, rest_of_text};
ghost use Rattle.git_strictlines.specs.Reading;
ghost use Rattle.git_strictlines.specs.Reading.{next_by};

use git_lines::{Fields, FormFault, FormKind, Line, Lines};

#[tactic(auto, unfolding(crate::specs::Reading::number_line))]
fn number_line(line: &Line<'_>, word: &[u8], low: u32, high: u32) -> Result<u32, FormFault>
    ensures reads { Gives (λ x. x) result (Rattle.git_strictlines.specs.Reading.number_line word.now low high line.now.number line.now.text.now) }
    ensures low { IfOk result (λ x. low ≤ x) }
    ensures high { IfOk result (λ x. x ≤ high) }
{
    let mut fields = Fields::new(line);
    fields.word_field(word)?;
    let n = fields.integer_field(i64::from(low), i64::from(high))?;
    fields.no_field()?;
    Ok(n.unsigned_abs() as u32)
}

#[tactic(auto, unfolding(crate::specs::Reading::header_line))]
fn header_line(line: &Line<'_>, format: &[u8], newest: u32) -> Result<u32, FormFault>
    ensures reads { Gives (λ x. x) result (Rattle.git_strictlines.specs.Reading.header_line format.now newest line.now.number line.now.text.now) }
    ensures some { IfOk result (λ x. 1 ≤ x) }
    ensures known { IfOk result (λ x. x ≤ newest) }
{
    match number_line(line, format, 1, newest) {
        Ok(version) => Ok(version),
        Err(_) => Err(FormFault {
            line: line.number,
            column: 1,
            kind: FormKind::Header,
        }),
    }
}

#[tactic(auto, unfolding(crate::specs::Reading::end_line))]
fn end_line(line: &Line<'_>) -> Result<(), FormFault>
    ensures { Gives (λ x. tt) result (Rattle.git_strictlines.specs.Reading.end_line line.now.number line.now.text.now) }
{
    let mut fields = Fields::new(line);
    fields.word_field(b"end")?;
    fields.no_field()
}

/// The first line: the word of the format and its version, from 1 to `newest`. Whatever else it holds, it is `Header`.
#[tactic(auto, unfolding(git_lines::specs::Reading::line_by))]
pub fn header(lines: &mut Lines<'_>, format: &[u8], newest: u32) -> Result<u32, FormFault>
    ensures reads { Gives (λ x. (x, rest_of_text lines.new)) result (next_by (Rattle.git_strictlines.specs.Reading.header_line format.now newest) (rest_of_text lines.old)) }
    ensures some { IfOk result (λ x. 1 ≤ x) }
    ensures known { IfOk result (λ x. x ≤ newest) }
    ensures bytes { lines.new.bytes.now ≡ lines.old.bytes.now }
{
    let line = lines.next_ended_line()?;
    header_line(&line, format, newest)
}

/// A line of a word and a number from `low` to `high`.
#[tactic(auto, unfolding(git_lines::specs::Reading::line_by))]
pub fn number(lines: &mut Lines<'_>, word: &[u8], low: u32, high: u32) -> Result<u32, FormFault>
    ensures reads { Gives (λ x. (x, rest_of_text lines.new)) result (next_by (Rattle.git_strictlines.specs.Reading.number_line word.now low high) (rest_of_text lines.old)) }
    ensures low { IfOk result (λ x. low ≤ x) }
    ensures high { IfOk result (λ x. x ≤ high) }
    ensures bytes { lines.new.bytes.now ≡ lines.old.bytes.now }
{
    let line = lines.next_ended_line()?;
    number_line(&line, word, low, high)
}

/// The last line: `end`.
#[tactic(auto, unfolding(git_lines::specs::Reading::line_by))]
pub fn end(lines: &mut Lines<'_>) -> Result<(), FormFault>
    ensures reads { Gives (λ x. (tt, rest_of_text lines.new)) result (next_by Rattle.git_strictlines.specs.Reading.end_line (rest_of_text lines.old)) }
    ensures bytes { lines.new.bytes.now ≡ lines.old.bytes.now }
{
    let line = lines.next_ended_line()?;
    end_line(&line)
}

/// Whether the next line is there with its line feed, and its first word is this one.
#[tactic(auto, unfolding(crate::specs::Reading::begins_with))]
pub fn begins_with(lines: &Lines<'_>, word: &[u8]) -> bool
    ensures { result ≡ Rattle.git_strictlines.specs.Reading.begins_with word.now (rest_of_text lines.now) }
{
    let mut ahead = Lines {
        line: lines.line,
        bytes: lines.bytes,
        at: lines.at,
    };
    let Ok(line) = ahead.next_ended_line() else {
        return false;
    };
    let mut fields = Fields::new(&line);
    match fields.next_field() {
        Ok(text) => text == word,
        Err(_) => false,
    }
}
