//! The text of a polynomial.
ghost use Rattle.std.specs.Prelude.{◌≡◌, ◌<◌, ◌++◌, if◌then◌else◌, [], codes, map, IfOk, OnOk};
ghost use Rattle.std.specs.String.{string_bytes};
ghost use Rattle.git_polytext.specs.Printing.{variable_text, power_text, powers_of, joined, starred, factor_texts, term_text, sign_text, polynomial_text};

use git_base::NoMemory;
use git_field::Fp;
use git_mono::Mono;
use git_poly::Poly;
use std::alloc::{AllocError, Global};
use std::fmt::Write;

/// The variable at a place.
fn push_variable(out: &mut String, place: usize) -> Result<(), AllocError>
    requires { place < 17 }
    ensures { OnOk result (string_bytes out.new ≡ string_bytes out.old ++ variable_text place) }
{
    if place == 16 {
        return out.push_str("y");
    }
    let index = place + 1;
    write!(out, "T({index})")
}

/// A power of the variable at a place.
fn push_power(out: &mut String, place: usize, e: u32) -> Result<(), AllocError>
    requires { place < 17 }
    ensures { OnOk result (string_bytes out.new ≡ string_bytes out.old ++ power_text (place, e)) }
{
    push_variable(out, place)?;
    if e != 1 {
        write!(out, "^{e}")?;
    }
    Ok(())
}

/// A power of the variable at a place, after a star where something was begun.
fn push_factor(out: &mut String, begun: bool, place: usize, e: u32) -> Result<(), AllocError>
    requires { place < 17 }
    ensures { OnOk result (string_bytes out.new ≡ string_bytes out.old ++ (if begun then codes "*" else []) ++ power_text (place, e)) }
{
    if begun {
        out.push_str("*")?;
    }
    push_power(out, place, e)
}

/// The powers of a monomial, with a star between each two; and before the first where something was begun.
fn push_powers(out: &mut String, m: &Mono, begun: bool) -> Result<(), AllocError>
    ensures { OnOk result (string_bytes out.new ≡ string_bytes out.old ++ joined begun (map power_text (powers_of m.now))) }
{
    let mut later = begun;
    for place in 0..17 {
        let e = m.exponent(place);
        if e > 0 {
            push_factor(out, later, place, e)?;
            later = true;
        }
    }
    Ok(())
}

/// The size of a number and a monomial.
fn push_factors(out: &mut String, size: u32, m: &Mono) -> Result<(), AllocError>
    ensures { OnOk result (string_bytes out.new ≡ string_bytes out.old ++ starred (factor_texts size m.now)) }
{
    let shown = size != 1 || m.degree() == 0;
    if shown {
        write!(out, "{size}")?;
    }
    push_powers(out, m, shown)
}

/// A term with its sign.
fn push_term(out: &mut String, first: bool, m: &Mono, number: Fp) -> Result<(), AllocError>
    ensures { OnOk result (string_bytes out.new ≡ string_bytes out.old ++ sign_text first number ++ term_text (m.now, number)) }
{
    let signed = number.signed();
    if signed < 0 {
        out.push_str("-")?;
    } else if !first {
        out.push_str("+")?;
    }
    push_factors(out, signed.unsigned_abs(), m)
}

/// The terms in descending order.
fn push_terms(out: &mut String, p: &Poly) -> Result<(), AllocError>
    ensures { OnOk result (string_bytes out.new ≡ string_bytes out.old ++ polynomial_text p.now) }
{
    let count = p.term_count();
    if count == 0 {
        return out.push_str("0");
    }
    for i in 0..count {
        let term = p.term_at(i);
        push_term(out, i == 0, &term.0, term.1)?;
    }
    Ok(())
}

/// Appends the text of a polynomial to a string, as [`print_poly`] gives it.
pub fn append_poly(out: &mut String, p: &Poly) -> Result<(), NoMemory>
    ensures { OnOk result (string_bytes out.new ≡ string_bytes out.old ++ polynomial_text p.now) }
{
    push_terms(out, p)?;
    Ok(())
}

/// The text of a polynomial: its terms in descending order, without spaces.
pub fn print_poly(alloc: Global, p: &Poly) -> Result<Vec<u8>, NoMemory>
    ensures { IfOk result (λ text. text.items ≡ polynomial_text p.now) }
{
    let mut out = String::new(alloc);
    append_poly(&mut out, p)?;
    Ok(out.into_bytes())
}
