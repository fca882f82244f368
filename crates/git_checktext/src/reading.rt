//! The reader: what a check text says, or the answer to its first fault.
ghost use Rattle.std.specs.Prelude.{◌≡◌, ◌⊎◌, ◌≤◌, ◌-◌, ℕ, length, take, drop, IfOk, IsErrOf};
ghost use Rattle.std.specs.Io.KnownBytes.{IsAtEnd};
ghost use Rattle.git_base.specs.Faults.{HasRisen};
ghost use Rattle.git_base.specs.Prefixes.{LosesPrefix};
ghost use Rattle.git_base.specs.declared.status.Status.TheVariants.{BadInput};
ghost use Rattle.git_lines.specs.declared.fault.FormKind.{FormKind};
ghost use Rattle.git_input.specs.Inputs.{InputValue};
ghost use Rattle.git_text.specs.Fronts.{IsFront, IsFirstFrontFault};
ghost use Rattle.git_text.specs.declared.fault.BadKind.{BadKind};
ghost use Rattle.git_text.specs.declared.fault.InputFault.{InputFault};
ghost use Rattle.git_listing.specs.Views.{listing_of};
ghost use Rattle.git_listing.specs.ListingReading as listings;
ghost use Rattle.git_listing.specs.ListingText.{listing_text};
ghost use Rattle.git_listing.specs.declared.fault.ListingFault.{ListingFault};
ghost use Rattle.git_replies.specs.Refusals.{long_text};
ghost use Rattle.git_replies.specs.declared.reply.Unanswered.{Unanswered};
ghost use Rattle.git_checktext.specs.CheckText.{IsHead};
ghost use Rattle.git_checktext.specs.Readings.{IsReading, IsRefusal, IsRefused, IsWhole};

use crate::counting::count_lines;
use crate::limits::TEXT_BYTES;
use crate::refusals::{certs_refusal, listing_refusal};
use crate::text::CheckText;
use git_base::{NoMemory, ReadError, Source, read_all};
use git_certtext::CertsFault;
use git_input::Input;
use git_listing::{Listing, ListingFault};
use git_replies::{Reply, Unanswered, input_refusal};
use git_text::{BadKind, InputFault, announced_variables, read_input_front};
use std::alloc::Global;

/// The check text that was read, or the answer to bytes that are none.
#[derive(Drop)]
pub enum TextReading {
    Text(CheckText),
    Refused(Reply),
}

/// The answer to too many bytes.
fn long_refusal(alloc: Global) -> Result<Reply, NoMemory>
    ensures { IfOk result (λ a. (a.status ≡ BadInput) × (a.text.items ≡ long_text)) }
{
    input_refusal(alloc, 0, 0, 0, &BadKind::TooLong)
}

/// The answer to bytes at whose head no input stands.
fn input_fault(alloc: Global, bytes: &[u8], fault: InputFault) -> Result<Reply, NoMemory>
    requires few { length bytes.now ≤ TEXT_BYTES }
    requires first { (line column : ℕ) → (kind : BadKind) → fault ≡ InputFault.Bad line column kind → IsFirstFrontFault bytes.now line column kind }
    ensures { IfOk result (IsRefusal bytes.now) }
{
    match fault {
        InputFault::NoMemory => Err(NoMemory),
        InputFault::Bad { line, column, kind } => {
            input_refusal(alloc, announced_variables(bytes), line, column, &kind)
        }
    }
}

/// The answer to a fault of what follows the input.
fn listing_fault(
    alloc: Global,
    bytes: &[u8],
    used: usize,
    fault: ListingFault,
) -> Result<Reply, NoMemory>
    requires few { length bytes.now ≤ TEXT_BYTES }
    requires within { used ≤ length bytes.now }
    requires front { (v : InputValue) × IsFront bytes.now v used }
    requires first { (line : ℕ) (kind : FormKind) → fault ≡ ListingFault.BadListing line kind → listings.IsFirstFault (drop used bytes.now) line kind }
    ensures { IfOk result (IsRefusal bytes.now) }
{
    match fault {
        ListingFault::NoMemory => Err(NoMemory),
        ListingFault::BadListing { line, kind } => {
            let before = count_lines(&bytes[..used]);
            listing_refusal(alloc, before + line as u64, kind)
        }
    }
}

/// The check text of this input and this listing, which ends before the byte at `end`, or the answer to the first fault
/// of what follows.
fn after_listing(
    alloc: Global,
    bytes: &[u8],
    input: Input,
    used: usize,
    listing: Listing,
    end: usize,
) -> Result<TextReading, NoMemory>
    requires few { length bytes.now ≤ TEXT_BYTES }
    requires within { (used ≤ end) × (end ≤ length bytes.now) }
    requires head { IsHead bytes.now input used (listing_of listing) (drop end bytes.now) }
    requires spelled { take (end - used) (drop used bytes.now) ≡ listing_text (listing_of listing) }
    ensures { IfOk result (IsWhole bytes.now) }
{
    let before_listing = count_lines(&bytes[..used]);
    let before_certs = before_listing + count_lines(&bytes[used..end]);
    let r = input.grading.r() as u32;
    match git_certtext::read(alloc, r, &bytes[end..]) {
        Ok((certs, _)) => Ok(TextReading::Text(CheckText {
            input,
            listing,
            certs,
            before_listing,
            before_certs,
        })),
        Err(CertsFault::NoMemory) => Err(NoMemory),
        Err(CertsFault::BadCerts { line, kind }) => {
            let reply = certs_refusal(alloc, before_certs + line as u64, kind)?;
            Ok(TextReading::Refused(reply))
        }
    }
}

/// The check text of this input, which takes so many bytes, or the answer to the first fault of what follows.
fn after_input(
    alloc: Global,
    bytes: &[u8],
    input: Input,
    used: usize,
) -> Result<TextReading, NoMemory>
    requires few { length bytes.now ≤ TEXT_BYTES }
    requires front { IsFront bytes.now input used }
    ensures { IfOk result (IsWhole bytes.now) }
{
    match git_listing::read(alloc, &bytes[used..]) {
        Ok((listing, taken)) => after_listing(alloc, bytes, input, used, listing, used + taken),
        Err(fault) => Ok(TextReading::Refused(listing_fault(alloc, bytes, used, fault)?)),
    }
}

/// The check text that the bytes are, or the answer to them: too many bytes, or the first fault of the input at their
/// head, of the listing after it or of the certificates after that.
pub fn read_check_text(alloc: Global, bytes: &[u8]) -> Result<TextReading, NoMemory>
    ensures { IfOk result (IsWhole bytes.now) }
{
    if bytes.len() > TEXT_BYTES {
        return Ok(TextReading::Refused(long_refusal(alloc)?));
    }
    match read_input_front(alloc, bytes) {
        Ok((input, used)) => after_input(alloc, bytes, input, used),
        Err(fault) => Ok(TextReading::Refused(input_fault(alloc, bytes, fault)?)),
    }
}

/// The check text that the source has left, or the answer to its bytes.
pub fn read<S: Source>(alloc: Global, source: &mut S) -> Result<TextReading, Unanswered>
    ensures reading { IfOk result (IsReading (S.left source.old)) }
    ensures end { IfOk result (λ r. IsAtEnd (S.left source.new) ⊎ IsRefused r) }
    ensures read { IsErrOf result Unanswered.ReadFault → HasRisen (S.faults source.old) (S.faults source.new) }
    ensures lost { LosesPrefix (S.left source.old) (S.left source.new) }
{
    match read_all(alloc, source, TEXT_BYTES) {
        Ok(bytes) => Ok(read_check_text(alloc, &bytes)?),
        Err(ReadError::TooLong) => Ok(TextReading::Refused(long_refusal(alloc)?)),
        Err(ReadError::ReadFault) => Err(Unanswered::ReadFault),
        Err(ReadError::NoMemory) => Err(Unanswered::NoMemory),
    }
}
