//! The printers.
ghost use Rattle.std.specs.Prelude.{◌≡◌, ◌<◌, ◌^◌, ◌++◌, ◌∷◌, [], codes, length, OnOk, IfOk};
ghost use Rattle.std.specs.List.{flat_map};
ghost use Rattle.std.specs.Fmt.{decimal};
ghost use Rattle.std.specs.String.{string_bytes};
ghost use Rattle.git_lines.specs.Printing.{line_text, number_line};
ghost use Rattle.git_certtext.specs.CertificateText.{polynomial_line, cert_text, block_text, certificates_text};

use git_base::NoMemory;
use git_facecert::{FaceCert, FaceVerdict};
use git_poly::Poly;
use git_polytext::append_poly;
use std::alloc::{AllocError, Global};
use std::fmt::Write;

/// A line of a letter and a polynomial.
fn push_polynomial(out: &mut String, letter: &str, p: &Poly) -> Result<(), NoMemory>
    ensures { OnOk result (string_bytes out.new ≡ string_bytes out.old ++ polynomial_line letter.now p.now) }
{
    out.push_str(letter)?;
    out.push_str(" ")?;
    append_poly(out, p)?;
    out.push_str("\n")?;
    Ok(())
}

fn push_polynomials(out: &mut String, letter: &str, ps: &[Poly]) -> Result<(), NoMemory>
    ensures { OnOk result (string_bytes out.new ≡ string_bytes out.old ++ flat_map (polynomial_line letter.now) ps.now) }
{
    for p in ps {
        push_polynomial(out, letter, p)?;
    }
    Ok(())
}

/// The first line of a block of members.
fn push_free(out: &mut String, mask: u16, count: usize) -> Result<(), AllocError>
    ensures { OnOk result (string_bytes out.new ≡ string_bytes out.old ++ line_text (codes "face" ∷ decimal mask ∷ codes "free" ∷ decimal count ∷ [])) }
{
    writeln!(out, "face {mask} free {count}")
}

/// The first line of a block of cofactors.
fn push_monomial(out: &mut String, mask: u16, power: u32, count: usize) -> Result<(), AllocError>
    ensures { OnOk result (string_bytes out.new ≡ string_bytes out.old ++ line_text (codes "face" ∷ decimal mask ∷ codes "monomial" ∷ decimal power ∷ decimal count ∷ [])) }
{
    writeln!(out, "face {mask} monomial {power} {count}")
}

fn push_cert(out: &mut String, mask: u16, cert: &FaceCert) -> Result<(), NoMemory>
    ensures { OnOk result (string_bytes out.new ≡ string_bytes out.old ++ cert_text mask cert.now) }
{
    match cert {
        FaceCert::Free { basis } => {
            push_free(out, mask, basis.len())?;
            push_polynomials(out, "g", basis)
        }
        FaceCert::Monomial { power, cofactors } => {
            push_monomial(out, mask, *power, cofactors.len())?;
            push_polynomials(out, "h", cofactors)
        }
    }
}

fn push_blocks(out: &mut String, verdicts: &[FaceVerdict]) -> Result<(), NoMemory>
    ensures { OnOk result (string_bytes out.new ≡ string_bytes out.old ++ flat_map block_text verdicts.now) }
{
    for verdict in verdicts {
        push_cert(out, verdict.mask, &verdict.cert)?;
    }
    Ok(())
}

/// The two lines before the first block.
fn push_head(out: &mut String, count: usize) -> Result<(), AllocError>
    ensures { OnOk result (string_bytes out.new ≡ string_bytes out.old ++ line_text (codes "gitfan-certs" ∷ codes "1" ∷ []) ++ number_line (codes "faces") count) }
{
    writeln!(out, "gitfan-certs 1")?;
    writeln!(out, "faces {count}")
}

fn push_certificates(out: &mut String, verdicts: &[FaceVerdict]) -> Result<(), NoMemory>
    ensures { OnOk result (string_bytes out.new ≡ string_bytes out.old ++ certificates_text verdicts.now) }
{
    push_head(out, verdicts.len())?;
    push_blocks(out, verdicts)?;
    out.push_str("end\n")?;
    Ok(())
}

/// The text of certificates: their number, a block for each in the order given, and a last line. Words have one space
/// between them, polynomials none, and a line feed ends each line.
pub fn print(alloc: Global, verdicts: &[FaceVerdict]) -> Result<Vec<u8>, NoMemory>
    ensures { IfOk result (λ text. text.items ≡ certificates_text verdicts.now) }
{
    let mut out = String::new(alloc);
    push_certificates(&mut out, verdicts)?;
    Ok(out.into_bytes())
}

/// The block of one certificate alone.
pub fn print_one(alloc: Global, verdict: &FaceVerdict) -> Result<Vec<u8>, NoMemory>
    ensures { IfOk result (λ text. text.items ≡ block_text verdict.now) }
{
    let mut out = String::new(alloc);
    push_cert(&mut out, verdict.mask, &verdict.cert)?;
    Ok(out.into_bytes())
}
