//! What `fan` writes of the listing of an input.
ghost use Rattle.std.specs.Prelude.{◌≡◌, ◌≤◌, ◌++◌, ℕ, List, IfOk};
ghost use Rattle.git_base.specs.declared.status.Status.{Status};
ghost use Rattle.git_input.specs.Inputs.{InputValue};
ghost use Rattle.git_listing.specs.Listings.{FitsVersion};
ghost use Rattle.git_listing.specs.ListingText.{listing_text};
ghost use Rattle.git_listing.specs.Views.{listing_of};
ghost use Rattle.git_replies.specs.Cases.{certificates};
ghost use Rattle.git_answers.specs.Ends.{spelled};
ghost use Rattle.git_answers.specs.Verdicts.{AreVerdicts, IsTail};
ghost use Rattle.git_answers.specs.Fan.{fan_of, written, options};

use crate::listing::{Listed, list_alone, list_together};
use git_answers::Output;
use git_base::{NoMemory, Status};
use git_certtext::print as print_certificates;
use git_crew::Gate;
use git_facecert::FaceVerdict;
use git_input::Input;
use git_limits::STEPS;
use git_listing::{Listing, print};
use git_replies::{Reply, counts_line};
use std::alloc::Global;
use std::marker::Sync;
use std::sync::Wait;
use std::thread::Threads;

/// The listing, and after it the certificates of all full faces.
fn certified_listing(
    alloc: Global,
    listing: &Listing,
    faces: &[FaceVerdict],
) -> Result<Vec<u8>, NoMemory>
    requires { FitsVersion (listing_of listing.now) }
    ensures { (v : InputValue) → AreVerdicts v faces.now
        → IfOk result (λ text. (after : List ℕ) × IsTail v certificates after × (text.items ≡ listing_text (listing_of listing.now) ++ after)) }
{
    let mut text = print(alloc, listing)?;
    let more = print_certificates(alloc, faces)?;
    text.extend_from_slice(&more)?;
    Ok(text)
}

/// The text that is asked for of the listing.
fn listed_text(
    alloc: Global,
    listing: &Listing,
    faces: &[FaceVerdict],
    output: Output,
) -> Result<Vec<u8>, NoMemory>
    requires { FitsVersion (listing_of listing.now) }
    ensures { (v : InputValue) → AreVerdicts v faces.now
        → IfOk result (λ text. (after : List ℕ) × IsTail v (written output (listing_of listing.now)).tail after × (text.items ≡ (written output (listing_of listing.now)).text ++ after)) }
{
    match output {
        Output::Plain => print(alloc, listing),
        Output::Certified => certified_listing(alloc, listing, faces),
        Output::Counted => counts_line(alloc, listing),
    }
}

/// The listing as it is asked for.
fn listed(
    alloc: Global,
    listing: &Listing,
    faces: &[FaceVerdict],
    output: Output,
) -> Result<Reply, NoMemory>
    requires { FitsVersion (listing_of listing.now) }
    ensures status { IfOk result (λ a. a.status ≡ Status.Done) }
    ensures text { (v : InputValue) → AreVerdicts v faces.now
        → IfOk result (λ a. (after : List ℕ) × IsTail v (written output (listing_of listing.now)).tail after × (a.text.items ≡ (written output (listing_of listing.now)).text ++ after)) }
{
    let text = listed_text(alloc, listing, faces, output)?;
    Ok(Reply {
        status: Status::Done,
        text,
    })
}

/// The answer of `fan` to an input, whose graph is closed on one thread.
pub fn fan_alone<R: Threads + Sync>(
    rt: &R,
    alloc: Global,
    input: &Input,
    table: u32,
    steps: u64,
    output: Output,
) -> Result<Reply, NoMemory>
    requires some { 1 ≤ table }
    requires table { table ≤ 65536 }
    requires steps { steps ≤ STEPS }
    ensures { IfOk result (λ a. spelled input.now (fan_of (options table steps) output input.now) a.status a.text.items) }
{
    match list_alone(rt, alloc, input, table, steps)? {
        Listed::Refused(reply) => Ok(reply),
        Listed::Chambers { faces, listing, .. } => listed(alloc, &listing, &faces, output),
    }
}

/// The answer of `fan` to an input, whose graph is closed by several workers.
pub fn fan_together<R: Threads + Wait + Sync, T: Gate + Sync>(
    rt: &R,
    alloc: Global,
    input: &Input,
    table: u32,
    steps: u64,
    output: Output,
    workers: u32,
    gate: &T,
) -> Result<Reply, NoMemory>
    requires some { 1 ≤ table }
    requires table { table ≤ 65536 }
    requires steps { steps ≤ STEPS }
    requires workers { (1 ≤ workers) × (workers ≤ 64) }
    ensures { IfOk result (λ a. spelled input.now (fan_of (options table steps) output input.now) a.status a.text.items) }
{
    match list_together(rt, alloc, input, table, steps, workers, gate)? {
        Listed::Refused(reply) => Ok(reply),
        Listed::Chambers { faces, listing, .. } => listed(alloc, &listing, &faces, output),
    }
}
