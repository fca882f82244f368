//! The lines before the first chamber.
ghost use Rattle.std.specs.Prelude.{◌≡◌, ◌≤◌, IfOk};
ghost use Rattle.git_lines.specs.Reading.{Gives};
ghost use Rattle.git_lines.specs.Views.{line_of, rest_of_text};
ghost use Rattle.git_strictlines.specs.Reading.{next_by};
ghost use Rattle.git_listing.specs.ListingReading;
ghost use Rattle.git_listing.specs.ListingReading.{head_at};
ghost use Rattle.git_listing.specs.HeadViews.{head_of};

use crate::limits::LISTED;
use git_limits::{COLUMNS, ROWS};
use git_lines::{Fields, FormFault, Line, Lines};
use git_strictlines::{header, number};

/// What the lines before the first chamber say.
#[derive(Clone, Copy)]
pub(crate) struct Head {
    pub(crate) version: u32,
    pub(crate) k: u32,
    pub(crate) r: u32,
    pub(crate) cones: u32,
    pub(crate) count: u32,
}

#[tactic(auto, unfolding(crate::specs::ListingReading::sizes_line))]
fn sizes_line(line: &Line<'_>) -> Result<(u32, u32), FormFault>
    ensures reads { Gives (λ x. x) result (Rattle.git_listing.specs.ListingReading.sizes_line line.now.number line.now.text.now) }
    ensures some_rows { IfOk result (λ x. 1 ≤ x.0) }
    ensures few_rows { IfOk result (λ x. x.0 ≤ ROWS) }
{
    let mut fields = Fields::new(line);
    fields.word_field(b"grading")?;
    let k = fields.integer_field(1, ROWS as i64)?;
    let r = fields.integer_field(1, COLUMNS as i64)?;
    fields.no_field()?;
    Ok((k.unsigned_abs() as u32, r.unsigned_abs() as u32))
}

/// The numbers of rows and columns of the matrix.
#[tactic(auto, unfolding(git_lines::specs::Reading::line_by))]
fn sizes(lines: &mut Lines<'_>) -> Result<(u32, u32), FormFault>
    ensures reads { Gives (λ x. (x, rest_of_text lines.new)) result (next_by Rattle.git_listing.specs.ListingReading.sizes_line (rest_of_text lines.old)) }
    ensures some_rows { IfOk result (λ x. 1 ≤ x.0) }
    ensures few_rows { IfOk result (λ x. x.0 ≤ ROWS) }
    ensures bytes { lines.new.bytes.now ≡ lines.old.bytes.now }
{
    let line = lines.next_ended_line()?;
    sizes_line(&line)
}

#[tactic(auto, unfolding(crate::specs::ListingReading::head_at))]
pub(crate) fn first_lines(lines: &mut Lines<'_>) -> Result<Head, FormFault>
    ensures reads { Gives (λ h. (head_of h, rest_of_text lines.new)) result (head_at (rest_of_text lines.old)) }
    ensures some_rows { IfOk result (λ h. 1 ≤ h.k) }
    ensures few_rows { IfOk result (λ h. h.k ≤ ROWS) }
    ensures few { IfOk result (λ h. h.count ≤ LISTED) }
    ensures bytes { lines.new.bytes.now ≡ lines.old.bytes.now }
{
    let version = header(lines, b"gitfan-listing", 2)?;
    let (k, r) = sizes(lines)?;
    let cones = number(lines, b"cones", 1, LISTED)?;
    let count = number(lines, b"chambers", 1, LISTED)?;
    Ok(Head {
        version,
        k,
        r,
        cones,
        count,
    })
}
