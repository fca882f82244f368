//! Reasons at their lines.
ghost use Rattle.std.specs.Prelude.{◌≡◌, ◌+◌, ◌<◌, ◌^◌, length};
ghost use Rattle.git_listing.specs.Views.{chamber_of};
ghost use Rattle.git_asked.specs.Asks.{lines_in, mark_lines};
ghost use Rattle.git_check_chambers.specs.Families.{finding_at};
ghost use Rattle.git_check_chambers.specs.Judged.{head_line, reason_line};

use git_asked::{Finding, Reason};
use git_listing::ListedChamber;

/// The reason at a line.
pub fn found(reason: Option<Reason>, line: u32) -> Option<Finding>
    ensures { result ≡ finding_at (λ r. line) reason }
{
    let Some(reason) = reason else {
        return None;
    };
    Some(Finding { reason, line })
}

/// The line in the head of a listing at which a reason is named; of others, 0.
fn line_in_head(reason: Reason) -> u32
    ensures { result ≡ head_line reason }
{
    match reason {
        Reason::Shape => 2,
        Reason::ConeCount => 3,
        Reason::FirstMissing => 4,
        _ => 0,
    }
}

/// The reason at its line in the head of a listing.
pub(crate) fn found_in_head(reason: Option<Reason>) -> Option<Finding>
    ensures { result ≡ finding_at head_line reason }
{
    let Some(reason) = reason else {
        return None;
    };
    Some(Finding {
        reason,
        line: line_in_head(reason),
    })
}

/// The line at which a reason of a chamber is named, whose first line is given: that of its weight, or its
/// first.
fn line_in_chamber(reason: Reason, c: &ListedChamber, line: u32) -> u32
    requires { line + lines_in (chamber_of c.now) < 2 ^ 32 }
    ensures { result ≡ reason_line line (chamber_of c.now) reason }
{
    match reason {
        Reason::Weight => line + 1 + c.rays.len() as u32,
        _ => line,
    }
}

/// The reason at its line in a chamber, whose first line is given.
pub(crate) fn found_in_chamber(
    reason: Option<Reason>,
    c: &ListedChamber,
    line: u32,
) -> Option<Finding>
    requires { line + lines_in (chamber_of c.now) < 2 ^ 32 }
    ensures { result ≡ finding_at (reason_line line (chamber_of c.now)) reason }
{
    let Some(reason) = reason else {
        return None;
    };
    Some(Finding {
        reason,
        line: line_in_chamber(reason, c, line),
    })
}

/// The number of lines of a mark.
fn mark_count(crossed: Option<u32>) -> u32
    ensures { result ≡ mark_lines crossed }
{
    match crossed {
        None => 0,
        Some(_) => 1,
    }
}

/// The line of a chamber's first facet, where that of the chamber is given.
pub(crate) fn facets_begin(c: &ListedChamber, line: u32) -> u32
    requires { line + lines_in (chamber_of c.now) < 2 ^ 32 }
    ensures { result ≡ line + 2 + length (chamber_of c.now).rays + mark_lines (chamber_of c.now).crossed }
{
    line + 2 + c.rays.len() as u32 + mark_count(c.crossed)
}

/// The line after a chamber, where that of the chamber is given.
pub(crate) fn line_after(c: &ListedChamber, line: u32) -> u32
    requires { line + lines_in (chamber_of c.now) < 2 ^ 32 }
    ensures { result ≡ line + lines_in (chamber_of c.now) }
{
    facets_begin(c, line) + c.facets.len() as u32
}
