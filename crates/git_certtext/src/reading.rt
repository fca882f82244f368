//! The reader.
ghost use Rattle.std.specs.Prelude.{◌≡◌, ◌⊎◌, ◌≤◌, ◌<◌, ◌-◌, ◌^◌, ℕ, List, length, map, IfOk, IsErrOf, MatchResult};
ghost use Rattle.git_facecert.specs.declared.certificate.FaceVerdict.{FaceVerdict as Verdict};
ghost use Rattle.git_lines.specs.declared.fault.FormKind.{FormKind};
ghost use Rattle.git_lines.specs.Lines.{text_from};
ghost use Rattle.git_lines.specs.Views.{rest_of_text};
ghost use Rattle.git_strictlines.specs.Faults.{GivesUnlessFull};
ghost use Rattle.git_certtext.specs.Blocks.{block_of, blocks_of, FitsCerts};
ghost use Rattle.git_certtext.specs.CertificateText.{certificates_text};
ghost use Rattle.git_certtext.specs.CertReading.{certs_at, certs_whole, reading, IsFirstFault};

use crate::blocks::blocks;
use crate::fault::CertsFault;
use crate::limits::FACES;
use git_facecert::FaceVerdict;
use git_limits::COLUMNS;
use git_lines::Lines;
use git_strictlines::{ReadFault, end, header, number};
use std::alloc::Global;

#[tactic(auto, unfolding(crate::specs::CertReading::certs_at))]
fn certificates(
    alloc: Global,
    lines: &mut Lines<'_>,
    r: usize,
    last: u32,
) -> Result<Vec<FaceVerdict>, ReadFault>
    requires variables { r ≤ COLUMNS }
    requires last { last < 2 ^ 16 }
    ensures reads { GivesUnlessFull (λ v. (map block_of v.items, rest_of_text lines.new)) result (certs_at r last (rest_of_text lines.old)) }
    ensures bytes { lines.new.bytes.now ≡ lines.old.bytes.now }
{
    header(lines, b"gitfan-certs", 1)?;
    let count = number(lines, b"faces", 0, FACES)?;
    let made = blocks(alloc, lines, r, last, count)?;
    end(lines)?;
    Ok(made)
}

#[tactic(auto, unfolding(crate::specs::CertReading::certs_whole))]
fn whole(alloc: Global, bytes: &[u8], r: usize, last: u32) -> Result<Vec<FaceVerdict>, ReadFault>
    requires few { length bytes.now < 2 ^ 32 - 1 }
    requires variables { r ≤ COLUMNS }
    requires last { last < 2 ^ 16 }
    ensures { GivesUnlessFull (λ v. map block_of v.items) result (certs_whole r last (text_from 1 0 bytes.now)) }
{
    let mut lines = Lines::new(bytes);
    let made = certificates(alloc, &mut lines, r, last)?;
    lines.no_line()?;
    Ok(made)
}

/// The greatest mask of a face of `r` variables.
fn last_mask(r: u32) -> u32
    requires { r ≤ COLUMNS }
    ensures same { result ≡ 2 ^ r - 1 }
    ensures small { result < 2 ^ 16 }
{
    (1 << r) - 1
}

/// The certificates whose text the bytes are, with `r` variables, and the number of bytes, which are all.
pub fn read(alloc: Global, r: u32, bytes: &[u8]) -> Result<(Vec<FaceVerdict>, usize), CertsFault>
    requires few { length bytes.now < 2 ^ 32 - 1 }
    requires some { 1 ≤ r }
    requires variables { r ≤ COLUMNS }
    ensures found { IfOk result (λ x. FitsCerts r (blocks_of x.0.items) × (bytes.now ≡ certificates_text x.0.items) × (x.1 ≡ length bytes.now)) }
    ensures only { (vs : List Verdict) → FitsCerts r (blocks_of vs) → bytes.now ≡ certificates_text vs
        → MatchResult result (λ x. blocks_of x.0.items ≡ blocks_of vs) (λ e. e ≡ CertsFault.NoMemory) }
    ensures fault { (line : ℕ) (kind : FormKind) → IsErrOf result (CertsFault.BadCerts line kind) → IsFirstFault r bytes.now line kind }
    ensures first { (line : ℕ) (kind : FormKind) → IsFirstFault r bytes.now line kind
        → MatchResult result (λ x. ⊥) (λ e. (e ≡ CertsFault.BadCerts line kind) ⊎ (e ≡ CertsFault.NoMemory)) }
{
    let last = last_mask(r);
    let made = whole(alloc, bytes, r as usize, last)?;
    Ok((made, bytes.len()))
}
