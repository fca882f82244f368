//! The blocks of faces.
ghost use Rattle.std.specs.Prelude.{◌≡◌, ◌≤◌, ◌<◌, ◌-◌, ◌^◌, map, IfOk};
ghost use Rattle.git_lines.specs.Reading.{Gives, times};
ghost use Rattle.git_lines.specs.Views.{line_of, rest_of_text};
ghost use Rattle.git_strictlines.specs.Faults.{GivesUnlessFull};
ghost use Rattle.git_strictlines.specs.Reading.{next_by};
ghost use Rattle.git_certtext.specs.Blocks.{cert_of, block_of};
ghost use Rattle.git_certtext.specs.BlockViews.{kind_of};
ghost use Rattle.git_certtext.specs.CertReading;
ghost use Rattle.git_certtext.specs.CertReading.{cert_at, block_at};

use crate::polynomials::polynomials;
use git_facecert::{CERT_MEMBERS, CERT_POWER, FaceCert, FaceVerdict};
use git_limits::{COLUMNS, GENERATORS};
use git_lines::{Fields, FormFault, FormKind, Line, Lines};
use git_strictlines::ReadFault;
use std::alloc::Global;

/// What the first line of a block announces.
#[derive(Clone, Copy)]
pub(crate) enum Announced {
    /// So many members.
    Members(u32),
    /// A power and so many cofactors.
    Cofactors { power: u32, count: u32 },
}

/// The first line of a block.
#[derive(Clone, Copy)]
struct FaceLine {
    mask: u32,
    announced: Announced,
}

#[tactic(auto, unfolding(crate::specs::CertReading::members_fields))]
fn members_fields(fields: &mut Fields<'_>) -> Result<Announced, FormFault>
    ensures { Gives (λ a. (kind_of a, fields.new)) result (Rattle.git_certtext.specs.CertReading.members_fields fields.old) }
{
    let count = fields.integer_field(1, CERT_MEMBERS as i64)?;
    Ok(Announced::Members(count.unsigned_abs() as u32))
}

#[tactic(auto, unfolding(crate::specs::CertReading::cofactors_fields))]
fn cofactors_fields(fields: &mut Fields<'_>) -> Result<Announced, FormFault>
    ensures { Gives (λ a. (kind_of a, fields.new)) result (Rattle.git_certtext.specs.CertReading.cofactors_fields fields.old) }
{
    let power = fields.integer_field(0, i64::from(CERT_POWER))?;
    let count = fields.integer_field(0, GENERATORS as i64)?;
    Ok(Announced::Cofactors {
        power: power.unsigned_abs() as u32,
        count: count.unsigned_abs() as u32,
    })
}

/// The kind of a certificate.
#[tactic(auto, unfolding(crate::specs::CertReading::kind_fields))]
fn kind_fields(fields: &mut Fields<'_>) -> Result<Announced, FormFault>
    ensures { Gives (λ a. (kind_of a, fields.new)) result (Rattle.git_certtext.specs.CertReading.kind_fields fields.old) }
{
    let text = fields.next_field()?;
    if text == b"free".as_slice() {
        return members_fields(fields);
    }
    if text == b"monomial".as_slice() {
        return cofactors_fields(fields);
    }
    Err(fields.fault(FormKind::Syntax))
}

#[tactic(auto, unfolding(crate::specs::CertReading::face_line))]
fn face_line(line: &Line<'_>, last: u32) -> Result<FaceLine, FormFault>
    ensures reads { Gives (λ f. (f.mask, kind_of f.announced)) result (Rattle.git_certtext.specs.CertReading.face_line last line.now.number line.now.text.now) }
    ensures within { IfOk result (λ f. f.mask ≤ last) }
{
    let mut fields = Fields::new(line);
    fields.word_field(b"face")?;
    let mask = fields.integer_field(1, i64::from(last))?;
    let announced = kind_fields(&mut fields)?;
    fields.no_field()?;
    Ok(FaceLine {
        mask: mask.unsigned_abs() as u32,
        announced,
    })
}

/// The first line of a block, whose mask is at most the last one.
#[tactic(auto, unfolding(git_lines::specs::Reading::line_by))]
fn face(lines: &mut Lines<'_>, last: u32) -> Result<FaceLine, FormFault>
    ensures reads { Gives (λ f. ((f.mask, kind_of f.announced), rest_of_text lines.new)) result (next_by (Rattle.git_certtext.specs.CertReading.face_line last) (rest_of_text lines.old)) }
    ensures within { IfOk result (λ f. f.mask ≤ last) }
    ensures bytes { lines.new.bytes.now ≡ lines.old.bytes.now }
{
    let line = lines.next_ended_line()?;
    face_line(&line, last)
}

/// The lines after the first of a block.
#[tactic(auto, unfolding(crate::specs::CertReading::cert_at))]
fn cert(
    alloc: Global,
    lines: &mut Lines<'_>,
    r: usize,
    announced: Announced,
) -> Result<FaceCert, ReadFault>
    requires { r ≤ COLUMNS }
    ensures reads { GivesUnlessFull (λ c. (cert_of c, rest_of_text lines.new)) result (cert_at r (kind_of announced) (rest_of_text lines.old)) }
    ensures bytes { lines.new.bytes.now ≡ lines.old.bytes.now }
{
    match announced {
        Announced::Members(count) => {
            let basis = polynomials(alloc, lines, b"g", r, count)?;
            Ok(FaceCert::Free { basis })
        }
        Announced::Cofactors { power, count } => {
            let cofactors = polynomials(alloc, lines, b"h", r, count)?;
            Ok(FaceCert::Monomial { power, cofactors })
        }
    }
}

#[tactic(auto, unfolding(crate::specs::CertReading::block_at))]
fn block(
    alloc: Global,
    lines: &mut Lines<'_>,
    r: usize,
    last: u32,
) -> Result<FaceVerdict, ReadFault>
    requires variables { r ≤ COLUMNS }
    requires last { last < 2 ^ 16 }
    ensures reads { GivesUnlessFull (λ v. (block_of v, rest_of_text lines.new)) result (block_at r last (rest_of_text lines.old)) }
    ensures bytes { lines.new.bytes.now ≡ lines.old.bytes.now }
{
    let face = face(lines, last)?;
    let cert = cert(alloc, lines, r, face.announced)?;
    Ok(FaceVerdict {
        mask: face.mask as u16,
        cert,
    })
}

/// So many blocks.
pub(crate) fn blocks(
    alloc: Global,
    lines: &mut Lines<'_>,
    r: usize,
    last: u32,
    count: u32,
) -> Result<Vec<FaceVerdict>, ReadFault>
    requires variables { r ≤ COLUMNS }
    requires last { last < 2 ^ 16 }
    ensures reads { GivesUnlessFull (λ v. (map block_of v.items, rest_of_text lines.new)) result (times (block_at r last) count (rest_of_text lines.old)) }
    ensures bytes { lines.new.bytes.now ≡ lines.old.bytes.now }
{
    let mut made = Vec::new(alloc);
    for _i in 0..count {
        let next = block(alloc, lines, r, last)?;
        made.push(next)?;
    }
    Ok(made)
}
