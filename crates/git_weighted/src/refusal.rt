//! The answer to a fault of the weights.
ghost use Rattle.std.specs.Prelude.{◌≡◌, ◌++◌, OnOk, IfOk};
ghost use Rattle.std.specs.String.{string_bytes};
ghost use Rattle.git_base.specs.declared.status.Status.{Status};
ghost use Rattle.git_lines.specs.Printing.{after_spaces};
ghost use Rattle.git_weighted.specs.Refusals.{kind_words, weights_fault_text};

use git_base::{NoMemory, Status};
use git_replies::Reply;
use git_text::BadKind;
use std::alloc::{AllocError, Global};
use std::fmt::Write;

/// The word of a kind after a space.
fn push_kind(out: &mut String, kind: &BadKind) -> Result<(), AllocError>
    ensures { OnOk result (string_bytes out.new ≡ string_bytes out.old ++ after_spaces (kind_words kind.now)) }
{
    match kind {
        BadKind::Header => out.push_str(" header"),
        BadKind::Number => out.push_str(" number"),
        BadKind::Count => out.push_str(" count"),
        BadKind::Range => out.push_str(" range"),
        BadKind::Syntax => out.push_str(" syntax"),
        BadKind::Variable => out.push_str(" variable"),
        BadKind::Homogeneous { .. } => out.push_str(" homogeneous"),
        BadKind::Rank => out.push_str(" rank"),
        BadKind::Pointed => out.push_str(" pointed"),
        BadKind::Trailing => out.push_str(" trailing"),
        BadKind::Truncated => out.push_str(" truncated"),
        BadKind::TooLong => out.push_str(" toolong"),
    }
}

fn push_fault(out: &mut String, line: u64, column: u32, kind: &BadKind) -> Result<(), AllocError>
    ensures { OnOk result (string_bytes out.new ≡ string_bytes out.old ++ weights_fault_text line column kind.now) }
{
    write!(out, "refused weights {line} {column}")?;
    push_kind(out, kind)?;
    out.push_str("\n")?;
    Ok(())
}

/// The answer to a fault of the weights, at a line of the whole text.
pub fn weights_refusal(
    alloc: Global,
    line: u64,
    column: u32,
    kind: &BadKind,
) -> Result<Reply, NoMemory>
    ensures { IfOk result (λ a. (a.status ≡ Status.BadInput) × (a.text.items ≡ weights_fault_text line column kind.now)) }
{
    let mut out = String::new(alloc);
    match push_fault(&mut out, line, column, kind) {
        Ok(()) => Ok(Reply {
            status: Status::BadInput,
            text: out.into_bytes(),
        }),
        Err(_) => Err(NoMemory),
    }
}
