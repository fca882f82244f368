//! The answers to faults of a listing and of certificates.
ghost use Rattle.std.specs.Prelude.{◌≡◌, ◌++◌, ◌∷◌, [], OnOk, IfOk};
ghost use Rattle.std.specs.String.{string_bytes};
ghost use Rattle.git_base.specs.declared.status.Status.{Status};
ghost use Rattle.git_lines.specs.Printing.{after_spaces};
ghost use Rattle.git_checktext.specs.Refusals.{certs_fault_text, form_word, listing_fault_text};

use git_base::{NoMemory, Status};
use git_lines::FormKind;
use git_replies::Reply;
use std::alloc::{AllocError, Global};
use std::fmt::Write;

/// The word of a kind after a space, and the line's end.
fn push_kind(out: &mut String, kind: FormKind) -> Result<(), AllocError>
    ensures { OnOk result (string_bytes out.new ≡ string_bytes out.old ++ (after_spaces (form_word kind ∷ []) ++ 10 ∷ [])) }
{
    match kind {
        FormKind::Header => out.push_str(" header\n"),
        FormKind::Number => out.push_str(" number\n"),
        FormKind::Count => out.push_str(" count\n"),
        FormKind::Range => out.push_str(" range\n"),
        FormKind::Syntax => out.push_str(" syntax\n"),
        FormKind::Truncated => out.push_str(" truncated\n"),
        FormKind::Trailing => out.push_str(" trailing\n"),
    }
}

fn push_listing_fault(out: &mut String, line: u64, kind: FormKind) -> Result<(), AllocError>
    ensures { OnOk result (string_bytes out.new ≡ string_bytes out.old ++ listing_fault_text line kind) }
{
    write!(out, "refused listing {line}")?;
    push_kind(out, kind)
}

fn push_certs_fault(out: &mut String, line: u64, kind: FormKind) -> Result<(), AllocError>
    ensures { OnOk result (string_bytes out.new ≡ string_bytes out.old ++ certs_fault_text line kind) }
{
    write!(out, "refused certs {line}")?;
    push_kind(out, kind)
}

/// The answer to a fault of the listing at a line of the whole text.
pub fn listing_refusal(alloc: Global, line: u64, kind: FormKind) -> Result<Reply, NoMemory>
    ensures { IfOk result (λ a. (a.status ≡ Status.BadInput) × (a.text.items ≡ listing_fault_text line kind)) }
{
    let mut out = String::new(alloc);
    match push_listing_fault(&mut out, line, kind) {
        Ok(()) => Ok(Reply {
            status: Status::BadInput,
            text: out.into_bytes(),
        }),
        Err(_) => Err(NoMemory),
    }
}

/// The answer to a fault of the certificates at a line of the whole text.
pub fn certs_refusal(alloc: Global, line: u64, kind: FormKind) -> Result<Reply, NoMemory>
    ensures { IfOk result (λ a. (a.status ≡ Status.BadInput) × (a.text.items ≡ certs_fault_text line kind)) }
{
    let mut out = String::new(alloc);
    match push_certs_fault(&mut out, line, kind) {
        Ok(()) => Ok(Reply {
            status: Status::BadInput,
            text: out.into_bytes(),
        }),
        Err(_) => Err(NoMemory),
    }
}
