//! The answer to bytes, and to what a source has left.
ghost use Rattle.std.specs.Prelude.{◌≡◌, ◌⊎◌, ◌≤◌, ℕ, List, IfOk, IsErrOf};
ghost use Rattle.std.specs.Io.KnownBytes.{IsAtEnd};
ghost use Rattle.git_base.specs.Faults.{HasRisen};
ghost use Rattle.git_base.specs.Prefixes.{LosesPrefix};
ghost use Rattle.git_base.specs.declared.status.Status.{Status};
ghost use Rattle.git_answers.specs.Ends.{over};
ghost use Rattle.git_replies.specs.Cases.{says};
ghost use Rattle.git_replies.specs.declared.reply.Unanswered.{Unanswered};
ghost use Rattle.git_check.specs.Checks.{checked_of};
ghost use Rattle.git_check.specs.declared.checked.Section.{Section};
ghost use Rattle.git_checktext.specs.CheckText.{IsCheckText};
ghost use Rattle.git_checktext.specs.Views.{text_of};
ghost use Rattle.git_check_replies.specs.CheckCases.{check_case, check_reply, checks, lines_before};

use crate::lines::{invalid_line, valid_line};
use git_base::{NoMemory, Source};
use git_check::{Checked, Section, check};
use git_checktext::{CheckText, TextReading, read, read_check_text};
use git_replies::{Reply, Unanswered};
use std::alloc::Global;

/// How many lines stand before a part of the text.
fn lines_before(text: &CheckText, section: Section) -> u64
    ensures { result ≡ Rattle.git_check_replies.specs.CheckCases.lines_before (text_of text.now) section }
{
    match section {
        Section::Listing => text.before_listing,
        Section::Certs => text.before_certs,
    }
}

/// The answer to a check text.
fn judged(alloc: Global, text: &CheckText) -> Result<Reply, NoMemory>
    requires { (bytes : List ℕ) × IsCheckText bytes (text_of text.now) }
    ensures { IfOk result (λ a. checks (text_of text.now) (says a.status a.text.items)) }
{
    match check(alloc, &text.input, &text.listing, &text.certs)? {
        Checked::Valid => valid_line(alloc),
        Checked::Invalid {
            section,
            line,
            reason,
        } => invalid_line(alloc, lines_before(text, section) + line as u64, reason),
    }
}

/// The answer to bytes: `BadInput` with the line of the first fault exactly where they are no check text, else `Done`
/// and `valid`, or `Invalid` with the first reason and its line in the whole text.
pub fn check_answer(alloc: Global, bytes: &[u8]) -> Result<Reply, NoMemory>
    ensures { IfOk result (λ a. check_reply bytes.now a.status a.text.items) }
{
    match read_check_text(alloc, bytes)? {
        TextReading::Text(text) => judged(alloc, &text),
        TextReading::Refused(reply) => Ok(reply),
    }
}

/// The answer to the bytes that the source has left.
pub fn check_source<S: Source>(alloc: Global, source: &mut S) -> Result<Reply, Unanswered>
    ensures answers { IfOk result (λ a. over (S.left source.old) check_reply a.status a.text.items) }
    ensures end { IfOk result (λ a. IsAtEnd (S.left source.new) ⊎ (a.status ≡ Status.BadInput)) }
    ensures read { IsErrOf result Unanswered.ReadFault → HasRisen (S.faults source.old) (S.faults source.new) }
    ensures lost { LosesPrefix (S.left source.old) (S.left source.new) }
{
    match read(alloc, source)? {
        TextReading::Text(text) => Ok(judged(alloc, &text)?),
        TextReading::Refused(reply) => Ok(reply),
    }
}
