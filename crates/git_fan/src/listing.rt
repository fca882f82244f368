//! The closure of an input's graph of signatures, and the listing of its chambers.
ghost use Rattle.std.specs.Prelude.{◌≡◌, ◌≤◌, ◌+◌, ◌*◌, ◌^◌, ℕ, Err, IfOk, OnOk, length};
ghost use Rattle.std.specs.List.{All};
ghost use Rattle.git_base.specs.declared.status.Status.{Status};
ghost use Rattle.git_input.specs.Inputs.{InputValue};
ghost use Rattle.git_machine.specs.Signatures.{Signature};
ghost use Rattle.git_machine.specs.Reach.{IsReach, ReachExceeds};
ghost use Rattle.git_machine.specs.declared.successors.CloseFault.{CloseFault};
ghost use Rattle.git_plain.specs.Closing.{InOrder, signatures_of};
ghost use Rattle.git_orbit.specs.Signatures.{IsLegal, width_of};
ghost use Rattle.git_chamber.specs.Chambers.{IsCell, IsNext};
ghost use Rattle.git_assemble.specs.Assembling.{IsClosure, IsFirstSignature};
ghost use Rattle.git_replies.specs.Cases.{◌otherwise◌};
ghost use Rattle.git_replies.specs.Lines.{full_text};
ghost use Rattle.git_answers.specs.Verdicts.{AreVerdicts};
ghost use Rattle.git_answers.specs.Fan.{not_good, options, refuses, table_full};
ghost use Rattle.git_fan.specs.Fans.{IsGraphOf, IsListed, IsNarrow, IsNotGoodReply};

use crate::opening::{Opened, open_fan};
use git_assemble::{AssembleFault, assemble};
use git_base::NoMemory;
use git_chamber::{Cell, FanGraph};
use git_crew::{Gate, close_over_with};
use git_facecert::FaceVerdict;
use git_input::Input;
use git_limits::STEPS;
use git_listing::Listing;
use git_machine::{CloseFault, Closed, Sig};
use git_plain::close_over;
use git_replies::{Reply, full_line, wide_chamber_line};
use std::alloc::Global;
use std::marker::Sync;
use std::sync::Wait;
use std::thread::Threads;

/// The chambers of an input, or the answer to an input whose chambers aren't listed.
#[derive(Drop)]
pub enum Listed {
    Refused(Reply),
    /// The graph of the input's signatures over its orbit cones, the verdicts of all full faces, and the
    /// listing.
    Chambers {
        graph: FanGraph,
        faces: Vec<FaceVerdict>,
        listing: Listing,
    },
}

/// The line of the first signature that is wide.
fn not_good_line(alloc: Global, fault: AssembleFault) -> Result<Reply, NoMemory>
    requires { IsNarrow fault }
    ensures { IfOk result (λ a. IsNotGoodReply fault a.status a.text.items) }
{
    match fault {
        AssembleFault::Wide { sig, at } => wide_chamber_line(alloc, &sig, &at),
        AssembleFault::NoMemory => Err(NoMemory),
    }
}

/// Where the reach is closed: a reached signature is wide, or the chambers are listed.
fn after_reach(
    alloc: Global,
    graph: FanGraph,
    faces: Vec<FaceVerdict>,
    closed: &Closed<Cell>,
) -> Result<Listed, NoMemory>
    requires closed { (first : Signature) × IsFirstSignature graph first × IsClosure graph.fan first closed.now.found.items }
    requires small { width_of graph.fan ≤ 1024 }
    ensures { (v : InputValue) → IsGraphOf v graph → AreVerdicts v faces.items → IfOk result (IsListed v (not_good v)) }
{
    match assemble(alloc, &graph, closed) {
        Ok(listing) => Ok(Listed::Chambers {
            graph,
            faces,
            listing,
        }),
        Err(fault) => Ok(Listed::Refused(not_good_line(alloc, fault)?)),
    }
}

/// The line of a table that is full.
fn full_or_memory(alloc: Global, table: u32, fault: CloseFault) -> Result<Reply, NoMemory>
    ensures full { IfOk result (λ a. fault ≡ CloseFault.Full) }
    ensures status { IfOk result (λ a. a.status ≡ Status.Full) }
    ensures text { IfOk result (λ a. a.text.items ≡ full_text table) }
{
    match fault {
        CloseFault::Full => full_line(alloc, table),
        CloseFault::NoMemory => Err(NoMemory),
    }
}

/// Where the graph is closed: more signatures are reached than the table holds, or a reached one is wide,
/// or the chambers are listed.
fn after_close(
    alloc: Global,
    graph: FanGraph,
    first: &Sig,
    faces: Vec<FaceVerdict>,
    table: u32,
    closed: Result<Closed<Cell>, CloseFault>,
) -> Result<Listed, NoMemory>
    requires few { table ≤ 65536 }
    requires small { width_of graph.fan ≤ 1024 }
    requires first { IsFirstSignature graph first.now }
    requires legal { IsLegal graph.fan first.now }
    requires reach { IfOk closed (λ c. IsReach (IsNext graph.fan) first.now (signatures_of c.found.items)) }
    requires order { IfOk closed (λ c. InOrder (signatures_of c.found.items)) }
    requires payloads { IfOk closed (λ c. All (λ f. IsCell graph.fan f.sig f.payload) c.found.items) }
    requires full { closed ≡ Err CloseFault.Full → ReachExceeds (IsNext graph.fan) first.now table }
    requires fits { OnOk closed (¬ ReachExceeds (IsNext graph.fan) first.now table) }
    ensures { (v : InputValue) (s : ℕ) → IsGraphOf v graph → AreVerdicts v faces.items
        → IfOk result (IsListed v (table_full v (options table s) otherwise not_good v)) }
{
    match closed {
        Ok(closed) => after_reach(alloc, graph, faces, &closed),
        Err(fault) => Ok(Listed::Refused(full_or_memory(alloc, table, fault)?)),
    }
}

/// The graph is closed on one thread.
fn closed_alone(
    alloc: Global,
    graph: FanGraph,
    faces: Vec<FaceVerdict>,
    table: u32,
) -> Result<Listed, NoMemory>
    requires some { 1 ≤ table }
    requires few { table ≤ 65536 }
    requires small { width_of graph.fan ≤ 1024 }
    ensures { (v : InputValue) (s : ℕ) → IsGraphOf v graph → AreVerdicts v faces.items
        → IfOk result (IsListed v (table_full v (options table s) otherwise not_good v)) }
{
    let first = graph.first(alloc)?;
    let closed = close_over(alloc, &graph, &first, table);
    after_close(alloc, graph, &first, faces, table, closed)
}

/// The graph is closed by several workers.
fn closed_together<R: Threads + Wait + Sync, T: Gate + Sync>(
    rt: &R,
    alloc: Global,
    graph: FanGraph,
    faces: Vec<FaceVerdict>,
    table: u32,
    workers: u32,
    gate: &T,
) -> Result<Listed, NoMemory>
    requires some { 1 ≤ table }
    requires few { table ≤ 65536 }
    requires workers { (1 ≤ workers) × (workers ≤ 64) }
    requires small { width_of graph.fan ≤ 1024 }
    requires room { (table + 64) * width_of graph.fan ≤ 2 ^ 24 }
    ensures { (v : InputValue) (s : ℕ) → IsGraphOf v graph → AreVerdicts v faces.items
        → IfOk result (IsListed v (table_full v (options table s) otherwise not_good v)) }
{
    let first = graph.first(alloc)?;
    let closed = close_over_with(rt, alloc, &graph, &first, table, workers, gate);
    after_close(alloc, graph, &first, faces, table, closed)
}

/// The chambers of an input, whose graph is closed on one thread: the answer to an input that is refused, or
/// its listing. At most `table` signatures and `steps` steps of each face's run are allowed.
pub fn list_alone<R: Threads + Sync>(
    rt: &R,
    alloc: Global,
    input: &Input,
    table: u32,
    steps: u64,
) -> Result<Listed, NoMemory>
    requires some { 1 ≤ table }
    requires table { table ≤ 65536 }
    requires steps { steps ≤ STEPS }
    ensures { IfOk result (IsListed input.now (refuses (options table steps) input.now)) }
{
    match open_fan(rt, alloc, input, table, steps)? {
        Opened::Decided(reply) => Ok(Listed::Refused(reply)),
        Opened::Open(graph, faces) => closed_alone(alloc, graph, faces, table),
    }
}

/// The chambers of an input, as [`list_alone`] has them, whose graph is closed by several workers.
pub fn list_together<R: Threads + Wait + Sync, T: Gate + Sync>(
    rt: &R,
    alloc: Global,
    input: &Input,
    table: u32,
    steps: u64,
    workers: u32,
    gate: &T,
) -> Result<Listed, NoMemory>
    requires some { 1 ≤ table }
    requires table { table ≤ 65536 }
    requires steps { steps ≤ STEPS }
    requires workers { (1 ≤ workers) × (workers ≤ 64) }
    ensures { IfOk result (IsListed input.now (refuses (options table steps) input.now)) }
{
    match open_fan(rt, alloc, input, table, steps)? {
        Opened::Decided(reply) => Ok(Listed::Refused(reply)),
        Opened::Open(graph, faces) => {
            closed_together(rt, alloc, graph, faces, table, workers, gate)
        }
    }
}
