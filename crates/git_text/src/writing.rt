//! The text of an input.
ghost use Rattle.std.specs.Prelude.{◌≡◌, ◌<◌, ◌≤◌, ◌++◌, ◌∷◌, [], codes, length, map, All, OnOk, IfOk};
ghost use Rattle.std.specs.List.{concat, range_with_len};
ghost use Rattle.std.specs.Fmt.{decimal, signed_decimal};
ghost use Rattle.std.specs.String.{string_bytes};
ghost use Rattle.git_lines.specs.Lines.{ended};
ghost use Rattle.git_lines.specs.Printing.{after_spaces, spaced};
ghost use Rattle.git_polytext.specs.Printing.{polynomial_text};
ghost use Rattle.git_text.specs.Grammar.{IsInput};
ghost use Rattle.git_text.specs.Writing.{row_of_columns, row_line_text, input_text};

use git_base::NoMemory;
use git_grading::Grading;
use git_input::Input;
use git_ints::IVec;
use git_poly::Poly;
use git_polytext::append_poly;
use std::alloc::{AllocError, Global};
use std::fmt::Write;

/// The entries of a row, each after a space.
fn push_entries(out: &mut String, columns: &[IVec], i: usize) -> Result<(), AllocError>
    requires { All (λ column. i < length column) columns.now }
    ensures { OnOk result (string_bytes out.new ≡ string_bytes out.old ++ after_spaces (map signed_decimal (row_of_columns columns.now i))) }
{
    for column in columns {
        let entry = column.entry(i);
        write!(out, " {entry}")?;
    }
    Ok(())
}

/// The line of a row.
fn push_row(out: &mut String, columns: &[IVec], i: usize) -> Result<(), AllocError>
    requires some { 1 ≤ length columns.now }
    requires there { All (λ column. i < length column) columns.now }
    ensures { OnOk result (string_bytes out.new ≡ string_bytes out.old ++ ended (row_line_text columns.now i)) }
{
    if let [first, others @ ..] = columns {
        let entry = first.entry(i);
        write!(out, "{entry}")?;
        push_entries(out, others, i)?;
        out.push_str("\n")?;
    }
    Ok(())
}

/// The lines of the rows.
fn push_rows(out: &mut String, grading: &Grading) -> Result<(), AllocError>
    ensures { OnOk result (string_bytes out.new ≡ string_bytes out.old ++ concat (map ended (map (row_line_text grading.now.columns) (range_with_len 0 grading.now.k)))) }
{
    let k = grading.k();
    for i in 0..k {
        push_row(out, grading.columns(), i)?;
    }
    Ok(())
}

/// The lines of the generators.
fn push_generators(out: &mut String, generators: &[Poly]) -> Result<(), NoMemory>
    ensures { OnOk result (string_bytes out.new ≡ string_bytes out.old ++ concat (map ended (map polynomial_text generators.now))) }
{
    for p in generators {
        append_poly(out, p)?;
        out.push_str("\n")?;
    }
    Ok(())
}

/// The two lines before the rows.
fn push_head(out: &mut String, k: usize, r: usize) -> Result<(), AllocError>
    ensures { OnOk result (string_bytes out.new ≡ string_bytes out.old ++ ended (codes "gitfan 1") ++ ended (spaced (codes "grading" ∷ decimal k ∷ decimal r ∷ []))) }
{
    writeln!(out, "gitfan 1")?;
    writeln!(out, "grading {k} {r}")?;
    Ok(())
}

/// The line of the number of generators.
fn push_count(out: &mut String, count: usize) -> Result<(), AllocError>
    ensures { OnOk result (string_bytes out.new ≡ string_bytes out.old ++ ended (spaced (codes "ideal" ∷ decimal count ∷ []))) }
{
    writeln!(out, "ideal {count}")?;
    Ok(())
}

fn push_input(out: &mut String, grading: &Grading, generators: &[Poly]) -> Result<(), NoMemory>
    ensures { OnOk result (string_bytes out.new ≡ string_bytes out.old ++ input_text (record { degrees = grading.now; generators = generators.now })) }
{
    push_head(out, grading.k(), grading.r())?;
    push_rows(out, grading)?;
    push_count(out, generators.len())?;
    push_generators(out, generators)?;
    out.push_str("end\n")?;
    Ok(())
}

fn text_of(alloc: Global, input: &Input) -> Result<Vec<u8>, NoMemory>
    ensures { IfOk result (λ text. text.items ≡ input_text input.now) }
{
    let mut out = String::new(alloc);
    push_input(&mut out, &input.grading, &input.generators)?;
    Ok(out.into_bytes())
}

/// The text of an input: one space between words, no spaces in polynomials, and a line feed after each line. Reading it
/// gives the input back.
pub fn write_input(alloc: Global, input: &Input) -> Result<Vec<u8>, NoMemory>
    ensures text { IfOk result (λ text. text.items ≡ input_text input.now) }
    ensures back { IfOk result (λ text. IsInput text.items input.now) }
{
    let _ = input.grading.k();
    text_of(alloc, input)
}
