//! What is answered.
ghost use Rattle.std.specs.Prelude.{◌≡◌};
ghost use Rattle.git_check.specs.Checks.{checked_of, section_of};

use git_asked::{Finding, Reason};

/// The part of a text in which a line is counted, from 1.
#[derive(Clone, Copy, Debug, PartialEq, Eq)]
pub enum Section {
    Listing,
    Certs,
}

/// What is answered of a listing and certificates.
#[derive(Clone, Copy, Debug, PartialEq, Eq)]
pub enum Checked {
    /// The listing is that of the input, and there is one accepted certificate for each full face.
    Valid,
    /// The first reason in order for which this isn't so, and the first line at which it holds.
    Invalid {
        section: Section,
        line: u32,
        reason: Reason,
    },
}

/// The part of a text in which a reason is named.
fn named_in(reason: Reason) -> Section
    ensures { result ≡ section_of reason }
{
    match reason {
        Reason::VerdictMissing => Section::Certs,
        Reason::CertRefused => Section::Certs,
        Reason::Monomial => Section::Certs,
        _ => Section::Listing,
    }
}

/// The answer where this is found.
pub(crate) fn answer(finding: Option<Finding>) -> Checked
    ensures { result ≡ checked_of finding }
{
    let Some(found) = finding else {
        return Checked::Valid;
    };
    Checked::Invalid {
        section: named_in(found.reason),
        line: found.line,
        reason: found.reason,
    }
}
