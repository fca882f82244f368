//! The lines that are answered of a check text.
ghost use Rattle.std.specs.Prelude.{◌≡◌, ◌++◌, ◌∷◌, [], OnOk, IfOk};
ghost use Rattle.std.specs.String.{string_bytes};
ghost use Rattle.git_base.specs.declared.status.Status.{Status};
ghost use Rattle.git_lines.specs.Printing.{after_spaces};
ghost use Rattle.git_check_replies.specs.CheckLines.{invalid_text, reason_word, valid_text};

use git_base::{NoMemory, Status};
use git_check::Reason;
use git_replies::Reply;
use std::alloc::{AllocError, Global};
use std::fmt::Write;

/// The word of a reason after a space, and the line's end.
fn push_reason(out: &mut String, reason: Reason) -> Result<(), AllocError>
    ensures { OnOk result (string_bytes out.new ≡ string_bytes out.old ++ (after_spaces (reason_word reason ∷ []) ++ 10 ∷ [])) }
{
    match reason {
        Reason::Shape => out.push_str(" shape\n"),
        Reason::VerdictMissing => out.push_str(" verdictmissing\n"),
        Reason::CertRefused => out.push_str(" certrefused\n"),
        Reason::Monomial => out.push_str(" monomial\n"),
        Reason::WideCone => out.push_str(" widecone\n"),
        Reason::ConeCount => out.push_str(" conecount\n"),
        Reason::Order => out.push_str(" order\n"),
        Reason::WideChamber => out.push_str(" widechamber\n"),
        Reason::Rays => out.push_str(" rays\n"),
        Reason::Weight => out.push_str(" weight\n"),
        Reason::Mark => out.push_str(" mark\n"),
        Reason::FacetSet => out.push_str(" facetset\n"),
        Reason::FacetKind => out.push_str(" facetkind\n"),
        Reason::Neighbour => out.push_str(" neighbour\n"),
        Reason::MatchKind => out.push_str(" matchkind\n"),
        Reason::FirstMissing => out.push_str(" firstmissing\n"),
        Reason::NotReached => out.push_str(" notreached\n"),
    }
}

/// The line of a valid text.
pub fn valid_line(alloc: Global) -> Result<Reply, NoMemory>
    ensures { IfOk result (λ a. (a.status ≡ Status.Done) × (a.text.items ≡ valid_text)) }
{
    let mut text = String::new(alloc);
    text.push_str("valid\n")?;
    Ok(Reply {
        status: Status::Done,
        text: text.into_bytes(),
    })
}

/// The line of a text that isn't valid: the reason, at a line of the whole text.
pub fn invalid_line(alloc: Global, line: u64, reason: Reason) -> Result<Reply, NoMemory>
    ensures { IfOk result (λ a. (a.status ≡ Status.Invalid) × (a.text.items ≡ invalid_text line reason)) }
{
    let mut text = String::new(alloc);
    write!(text, "invalid {line}")?;
    push_reason(&mut text, reason)?;
    Ok(Reply {
        status: Status::Invalid,
        text: text.into_bytes(),
    })
}
