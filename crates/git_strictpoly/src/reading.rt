//! A polynomial in its one spelling.
ghost use Rattle.std.specs.Prelude.{◌≡◌, ◌≤◌, ◌<◌, length, IfOk, MatchResult};
ghost use Rattle.git_algebra.specs.Polynomials.{Polynomial};
ghost use Rattle.git_polytext.specs.Printing.{polynomial_text};
ghost use Rattle.git_strictpoly.specs.Laws.{FitsPoly};
ghost use Rattle.std.specs.List.{AllByRecursion};
ghost use Rattle.git_algebra.specs.Order.{rank};
ghost use Rattle.git_strictpoly.specs.declared.reading.StrictFault.TheVariants.{Form as form, NoMemory as no_memory};
ghost use Rattle.git_strictpoly.specs.Strict;
ghost use Rattle.git_strictpoly.specs.Strict.{terms_after, terms_front};
ghost use Rattle.git_strictpoly.specs.Strict.{strict_polynomial as strict};
ghost use Rattle.git_strictpoly.specs.Giving.{GivesSum, GivesStrict, after};

use crate::front::{Front, signed};
use git_base::NoMemory;
use git_limits::COLUMNS;
use git_lines::FormKind;
use git_mono::Mono;
use git_poly::Poly;
use std::alloc::Global;

/// Why bytes are not the text of a polynomial.
#[derive(Clone, Copy, Debug, PartialEq, Eq)]
pub enum StrictFault {
    /// `Range`: an index above `r`, or a degree above 2^25. `Syntax`: all else. Other kinds of form do not come.
    Form(FormKind),
    /// There wasn't enough memory.
    NoMemory,
}

impl From<FormKind> for StrictFault {
    ghost from_gives = { λ k e. e ≡ form k };

    fn from(kind: FormKind) -> Self {
        StrictFault::Form(kind)
    }
}

impl From<NoMemory> for StrictFault {
    ghost from_gives = { λ _ e. e ≡ no_memory };

    fn from(_fault: NoMemory) -> Self {
        StrictFault::NoMemory
    }
}

/// The terms from a sign on to the end, after those of a sum.
fn add_terms(r: usize, front: &mut Front<'_>, first: Mono, begun: Poly) -> Result<Poly, StrictFault>
    requires variables { r ≤ COLUMNS }
    requires below { AllByRecursion (λ t. rank first ≤ rank t.0) begun.terms }
    ensures { GivesSum result (after begun.terms (terms_after (length front.old) r first front.old)) }
{
    let mut left = front.len();
    let mut before = first;
    let mut sum = begun;
    while front.len() > 0 {
        if left == 0 {
            return Err(StrictFault::Form(FormKind::Syntax));
        }
        left -= 1;
        let term = front.later_term(r, &before)?;
        sum.append(term.mono, term.number)?;
        before = term.mono;
    }
    Ok(sum)
}

/// All terms, the first after a minus or none.
#[tactic(auto, unfolding(crate::specs::Strict::terms_front))]
fn terms(
    alloc: Global,
    r: usize,
    negative: bool,
    front: &mut Front<'_>,
) -> Result<Poly, StrictFault>
    requires { r ≤ COLUMNS }
    ensures { GivesSum result (terms_front r negative front.old) }
{
    let first = front.term(r)?;
    let sum = Poly::term(alloc, first.mono, signed(negative, first.size))?;
    add_terms(r, front, first.mono, sum)
}

/// The terms of a sum, none for `0`.
fn sum(alloc: Global, r: usize, bytes: &[u8]) -> Result<Poly, StrictFault>
    requires { r ≤ COLUMNS }
    ensures { GivesSum result (Rattle.git_strictpoly.specs.Strict.sum_front r bytes.now) }
{
    if bytes == b"0".as_slice() {
        return Ok(Poly::zero(alloc));
    }
    let mut front = Front::new(bytes);
    if front.begins(b'-') {
        front.skip();
        return terms(alloc, r, true, &mut front);
    }
    terms(alloc, r, false, &mut front)
}

/// The polynomial whose text these bytes are, where there are the variables `T(1)` to `T(r)` and `y`, or the kind of the
/// first fault.
pub fn strict_polynomial(alloc: Global, r: usize, bytes: &[u8]) -> Result<Poly, StrictFault>
    requires { r ≤ COLUMNS }
    ensures found { IfOk result (λ p. (bytes.now ≡ polynomial_text p) × FitsPoly r p) }
    ensures only { (p : Polynomial) → bytes.now ≡ polynomial_text p → FitsPoly r p → MatchResult result (λ q. q ≡ p) (λ e. e ≡ StrictFault.NoMemory) }
    ensures exact { GivesStrict result (strict r bytes.now) }
{
    sum(alloc, r, bytes)
}
