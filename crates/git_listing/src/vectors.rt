//! Lines of vectors and facets.
ghost use Rattle.std.specs.Prelude.{◌≡◌, ◌≤◌, ◌≤ℤ◌, pos, IfOk};
ghost use Rattle.git_lines.specs.Reading.{Gives};
ghost use Rattle.git_lines.specs.Views.{line_of, rest_of_text};
ghost use Rattle.git_strictlines.specs.Reading.{next_by};
ghost use Rattle.git_listing.specs.ListingReading;
ghost use Rattle.git_listing.specs.ListingReading.{entries_at};
ghost use Rattle.git_listing.specs.Views.{side_of, facet_of};

use crate::limits::{ENTRY_HIGH, ENTRY_LOW, LISTED};
use crate::listing::{ListedFacet, ListedSide};
use git_ints::IVec;
use git_limits::ROWS;
use git_lines::{Fields, FormFault, FormKind, Line, Lines};

/// The next `k` fields as a vector.
fn entries(fields: &mut Fields<'_>, k: usize, low: i64, high: i64) -> Result<IVec, FormFault>
    requires some { 1 ≤ k }
    requires few { k ≤ ROWS }
    ensures { Gives (λ v. (v, fields.new)) result (entries_at k low high fields.old) }
{
    let mut all = [0i128; ROWS];
    for i in 0..k {
        let entry = fields.integer_field(low, high)?;
        all[i] = i128::from(entry);
    }
    Ok(IVec::of(&all[..k]))
}

#[tactic(auto, unfolding(crate::specs::ListingReading::vector_line))]
fn vector_line(
    line: &Line<'_>,
    word: &[u8],
    k: usize,
    low: i64,
    high: i64,
) -> Result<IVec, FormFault>
    requires some { 1 ≤ k }
    requires few { k ≤ ROWS }
    ensures { Gives (λ v. v) result (Rattle.git_listing.specs.ListingReading.vector_line word.now k low high line.now.number line.now.text.now) }
{
    let mut fields = Fields::new(line);
    fields.word_field(word)?;
    let v = entries(&mut fields, k, low, high)?;
    fields.no_field()?;
    Ok(v)
}

/// Whether the wall is shared, where the version says it.
#[tactic(auto, unfolding(crate::specs::ListingReading::match_field))]
fn match_field(fields: &mut Fields<'_>, version: u32) -> Result<bool, FormFault>
    ensures { Gives (λ m. (m, fields.new)) result (Rattle.git_listing.specs.ListingReading.match_field version fields.old) }
{
    if version == 1 {
        return Ok(false);
    }
    let text = fields.next_field()?;
    if text == b"matched".as_slice() {
        return Ok(true);
    }
    if text == b"unmatched".as_slice() {
        return Ok(false);
    }
    Err(fields.fault(FormKind::Syntax))
}

/// The number of a chamber, and whether the wall is shared.
#[tactic(auto, unfolding(crate::specs::ListingReading::neighbour_fields))]
fn neighbour_fields(fields: &mut Fields<'_>, version: u32) -> Result<ListedSide, FormFault>
    ensures { Gives (λ s. (side_of s, fields.new)) result (Rattle.git_listing.specs.ListingReading.neighbour_fields version fields.old) }
{
    let number = fields.integer_field(1, i64::from(LISTED))?;
    let matched = match_field(fields, version)?;
    Ok(ListedSide::Inner {
        chamber: number.unsigned_abs() as u32,
        matched,
    })
}

/// What lies behind a facet.
#[tactic(auto, unfolding(crate::specs::ListingReading::side_fields))]
fn side_fields(fields: &mut Fields<'_>, version: u32) -> Result<ListedSide, FormFault>
    ensures { Gives (λ s. (side_of s, fields.new)) result (Rattle.git_listing.specs.ListingReading.side_fields version fields.old) }
{
    let text = fields.next_field()?;
    if text == b"boundary".as_slice() {
        return Ok(ListedSide::Boundary);
    }
    if text == b"inner".as_slice() {
        return neighbour_fields(fields, version);
    }
    Err(fields.fault(FormKind::Syntax))
}

#[tactic(auto, unfolding(crate::specs::ListingReading::facet_line))]
fn facet_line(line: &Line<'_>, version: u32, k: usize) -> Result<ListedFacet, FormFault>
    requires some { 1 ≤ k }
    requires few { k ≤ ROWS }
    ensures { Gives facet_of result (Rattle.git_listing.specs.ListingReading.facet_line version k line.now.number line.now.text.now) }
{
    let mut fields = Fields::new(line);
    fields.word_field(b"facet")?;
    let normal = entries(&mut fields, k, ENTRY_LOW, ENTRY_HIGH)?;
    let side = side_fields(&mut fields, version)?;
    fields.no_field()?;
    Ok(ListedFacet { normal, side })
}

/// A line of a word and `k` integers from `low` to `high`.
#[tactic(auto, unfolding(git_lines::specs::Reading::line_by))]
pub(crate) fn vector(
    lines: &mut Lines<'_>,
    word: &[u8],
    k: usize,
    low: i64,
    high: i64,
) -> Result<IVec, FormFault>
    requires some { 1 ≤ k }
    requires few { k ≤ ROWS }
    ensures reads { Gives (λ v. (v, rest_of_text lines.new)) result (next_by (Rattle.git_listing.specs.ListingReading.vector_line word.now k low high) (rest_of_text lines.old)) }
    ensures bytes { lines.new.bytes.now ≡ lines.old.bytes.now }
{
    let line = lines.next_ended_line()?;
    vector_line(&line, word, k, low, high)
}

/// The line of a facet.
#[tactic(auto, unfolding(git_lines::specs::Reading::line_by))]
pub(crate) fn facet(lines: &mut Lines<'_>, version: u32, k: usize) -> Result<ListedFacet, FormFault>
    requires some { 1 ≤ k }
    requires few { k ≤ ROWS }
    ensures reads { Gives (λ f. (facet_of f, rest_of_text lines.new)) result (next_by (Rattle.git_listing.specs.ListingReading.facet_line version k) (rest_of_text lines.old)) }
    ensures bytes { lines.new.bytes.now ≡ lines.old.bytes.now }
{
    let line = lines.next_ended_line()?;
    facet_line(&line, version, k)
}
