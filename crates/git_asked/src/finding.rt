//! Findings: a reason and a line.
ghost use Rattle.std.specs.Prelude.{◌≡◌};
ghost use Rattle.git_asked.specs.Findings.{earlier_of, is_before, rank_of};

/// Why a check text is refused, in the order in which reasons are given.
#[derive(Clone, Copy, Debug, PartialEq, Eq)]
pub enum Reason {
    /// The listing's matrix hasn't the input's size.
    Shape,
    /// The masks of the certificates aren't the full faces in descending order.
    VerdictMissing,
    /// A certificate isn't accepted.
    CertRefused,
    /// The full face's certificate is monomial.
    Monomial,
    /// A cone is wide.
    WideCone,
    /// The number of cones differs.
    ConeCount,
    /// A chamber's rays don't come after those of the chamber before.
    Order,
    /// The facets of the cones that hold a chamber's rays are wide.
    WideChamber,
    /// The rays aren't those of a chamber of full dimension.
    Rays,
    /// The weight isn't the sum of the rays.
    Weight,
    /// The mark of a crossed chamber is missing, or isn't right.
    Mark,
    /// The normals aren't those of the chamber's facets, in order.
    FacetSet,
    /// An inner facet is boundary, or the reverse.
    FacetKind,
    /// An inner facet names another chamber than the one that it leads to.
    Neighbour,
    /// A facet's `matched` or `unmatched` isn't right.
    MatchKind,
    /// The first chamber isn't listed.
    FirstMissing,
    /// A chamber isn't reached from the first.
    NotReached,
}

/// A reason, and the line at which it holds, from 1, in the text of the listing or of the certificates.
#[derive(Clone, Copy, Debug, PartialEq, Eq)]
pub struct Finding {
    pub reason: Reason,
    pub line: u32,
}

/// The place of the reason in the order, from 0.
fn rank(reason: Reason) -> u32
    ensures { result ≡ rank_of reason }
{
    match reason {
        Reason::Shape => 0,
        Reason::VerdictMissing => 1,
        Reason::CertRefused => 2,
        Reason::Monomial => 3,
        Reason::WideCone => 4,
        Reason::ConeCount => 5,
        Reason::Order => 6,
        Reason::WideChamber => 7,
        Reason::Rays => 8,
        Reason::Weight => 9,
        Reason::Mark => 10,
        Reason::FacetSet => 11,
        Reason::FacetKind => 12,
        Reason::Neighbour => 13,
        Reason::MatchKind => 14,
        Reason::FirstMissing => 15,
        Reason::NotReached => 16,
    }
}

/// Whether `g` is given before `f`: its reason comes before, or it has the same reason at an earlier line.
fn comes_before(g: Finding, f: Finding) -> bool
    ensures { result ≡ is_before g f }
{
    let a = rank(g.reason);
    let b = rank(f.reason);
    a < b || (a == b && g.line < f.line)
}

/// The one of two findings that is given: that with the earlier reason, and of two with one reason that at
/// the earlier line. Where neither finds anything, None.
pub fn earlier(a: Option<Finding>, b: Option<Finding>) -> Option<Finding>
    ensures { result ≡ earlier_of a b }
{
    let Some(f) = a else {
        return b;
    };
    let Some(g) = b else {
        return a;
    };
    if comes_before(g, f) { b } else { a }
}
