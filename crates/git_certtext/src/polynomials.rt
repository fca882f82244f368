//! Lines of polynomials.
ghost use Rattle.std.specs.Prelude.{◌≡◌, ◌≤◌, ◌-◌};
ghost use Rattle.git_lines.specs.Views.{line_of, rest_of_text};
ghost use Rattle.git_strictlines.specs.Faults.{GivesUnlessFull};
ghost use Rattle.git_strictlines.specs.Reading.{next_by};
ghost use Rattle.git_certtext.specs.CertReading;
ghost use Rattle.git_certtext.specs.CertReading.{polynomials_at};

use git_limits::COLUMNS;
use git_lines::{Fields, Line, Lines};
use git_poly::Poly;
use git_strictlines::ReadFault;
use git_strictpoly::{StrictFault, strict_polynomial};
use std::alloc::Global;

/// The next field as a polynomial.
#[tactic(auto, unfolding(crate::specs::CertReading::polynomial_field))]
fn polynomial_field(alloc: Global, fields: &mut Fields<'_>, r: usize) -> Result<Poly, ReadFault>
    requires { r ≤ COLUMNS }
    ensures { GivesUnlessFull (λ p. (p, fields.new)) result (Rattle.git_certtext.specs.CertReading.polynomial_field r fields.old) }
{
    let text = fields.next_field()?;
    match strict_polynomial(alloc, r, text) {
        Ok(p) => Ok(p),
        Err(StrictFault::Form(kind)) => Err(ReadFault::Form(fields.fault(kind))),
        Err(StrictFault::NoMemory) => Err(ReadFault::NoMemory),
    }
}

#[tactic(auto, unfolding(crate::specs::CertReading::polynomial_line))]
fn polynomial_line(
    alloc: Global,
    line: &Line<'_>,
    letter: &[u8],
    r: usize,
) -> Result<Poly, ReadFault>
    requires { r ≤ COLUMNS }
    ensures { GivesUnlessFull (λ p. p) result (Rattle.git_certtext.specs.CertReading.polynomial_line letter.now r line.now.number line.now.text.now) }
{
    let mut fields = Fields::new(line);
    fields.word_field(letter)?;
    let p = polynomial_field(alloc, &mut fields, r)?;
    fields.no_field()?;
    Ok(p)
}

#[tactic(auto, unfolding(git_lines::specs::Reading::line_by))]
fn polynomial(
    alloc: Global,
    lines: &mut Lines<'_>,
    letter: &[u8],
    r: usize,
) -> Result<Poly, ReadFault>
    requires { r ≤ COLUMNS }
    ensures reads { GivesUnlessFull (λ p. (p, rest_of_text lines.new)) result (next_by (Rattle.git_certtext.specs.CertReading.polynomial_line letter.now r) (rest_of_text lines.old)) }
    ensures bytes { lines.new.bytes.now ≡ lines.old.bytes.now }
{
    let line = lines.next_ended_line()?;
    polynomial_line(alloc, &line, letter, r)
}

/// So many lines of a letter and a polynomial.
pub(crate) fn polynomials(
    alloc: Global,
    lines: &mut Lines<'_>,
    letter: &[u8],
    r: usize,
    count: u32,
) -> Result<Vec<Poly>, ReadFault>
    requires { r ≤ COLUMNS }
    ensures reads { GivesUnlessFull (λ v. (v.items, rest_of_text lines.new)) result (polynomials_at letter.now r count (rest_of_text lines.old)) }
    ensures bytes { lines.new.bytes.now ≡ lines.old.bytes.now }
{
    let mut made = Vec::new(alloc);
    for _i in 0..count {
        let next = polynomial(alloc, lines, letter, r)?;
        made.push(next)?;
    }
    Ok(made)
}
