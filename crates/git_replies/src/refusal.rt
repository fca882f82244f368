//! The lines that say why an input is refused.
ghost use Rattle.std.specs.Prelude.{◌≡◌, ◌≤◌, ◌++◌, map, take, OnOk, IfOk};
ghost use Rattle.std.specs.Fmt.{decimal};
ghost use Rattle.std.specs.String.{string_bytes};
ghost use Rattle.git_lines.specs.Printing.{after_spaces};
ghost use Rattle.git_replies.specs.Refusals.{exponent_words, kind_words, fault_text};

use git_base::NoMemory;
use git_limits::COLUMNS;
use git_mono::Mono;
use git_text::BadKind;
use std::alloc::{AllocError, Global};
use std::fmt::Write;

/// The first `r` exponents, each after a space.
fn push_exponents(out: &mut String, m: &Mono, r: usize) -> Result<(), AllocError>
    requires { r ≤ COLUMNS }
    ensures { OnOk result (string_bytes out.new ≡ string_bytes out.old ++ after_spaces (exponent_words r m.now)) }
{
    for i in 0..r {
        write!(out, " {}", m.exponent(i))?;
    }
    Ok(())
}

/// The generator's number and the two monomials of different degrees.
fn push_monomials(
    out: &mut String,
    generator: u32,
    first: &Mono,
    second: &Mono,
    r: usize,
) -> Result<(), AllocError>
    requires { r ≤ COLUMNS }
    ensures { OnOk result (string_bytes out.new ≡ string_bytes out.old ++ after_spaces (kind_words r (BadKind.Homogeneous generator first.now second.now))) }
{
    write!(out, " homogeneous {generator}")?;
    push_exponents(out, first, r)?;
    out.push_str(" ;")?;
    push_exponents(out, second, r)?;
    Ok(())
}

/// The words of a kind, each after a space.
fn push_kind(out: &mut String, kind: &BadKind, r: usize) -> Result<(), AllocError>
    requires { r ≤ COLUMNS }
    ensures { OnOk result (string_bytes out.new ≡ string_bytes out.old ++ after_spaces (kind_words r kind.now)) }
{
    match kind {
        BadKind::Header => out.push_str(" header"),
        BadKind::Number => out.push_str(" number"),
        BadKind::Count => out.push_str(" count"),
        BadKind::Range => out.push_str(" range"),
        BadKind::Syntax => out.push_str(" syntax"),
        BadKind::Variable => out.push_str(" variable"),
        BadKind::Homogeneous {
            generator,
            first,
            second,
        } => push_monomials(out, *generator, first, second, r),
        BadKind::Rank => out.push_str(" rank"),
        BadKind::Pointed => out.push_str(" pointed"),
        BadKind::Trailing => out.push_str(" trailing"),
        BadKind::Truncated => out.push_str(" truncated"),
        BadKind::TooLong => out.push_str(" toolong"),
    }
}

fn push_fault(
    out: &mut String,
    r: usize,
    line: u32,
    column: u32,
    kind: &BadKind,
) -> Result<(), AllocError>
    requires { r ≤ COLUMNS }
    ensures { OnOk result (string_bytes out.new ≡ string_bytes out.old ++ fault_text r line column kind.now) }
{
    write!(out, "refused input {line} {column}")?;
    push_kind(out, kind, r)?;
    out.push_str("\n")?;
    Ok(())
}

/// The line of a fault of the input. Of monomials `r` exponents are shown, at most sixteen.
pub(crate) fn refusal(
    alloc: Global,
    r: usize,
    line: u32,
    column: u32,
    kind: &BadKind,
) -> Result<Vec<u8>, NoMemory>
    requires { r ≤ COLUMNS }
    ensures { IfOk result (λ text. text.items ≡ fault_text r line column kind.now) }
{
    let mut out = String::new(alloc);
    match push_fault(&mut out, r, line, column, kind) {
        Ok(()) => Ok(out.into_bytes()),
        Err(_) => Err(NoMemory),
    }
}
