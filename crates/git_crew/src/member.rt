//! A member of the crew.
ghost use Rattle.std.specs.Prelude.{◌≡◌, Some, IfSome, IsNone};
ghost use Rattle.git_table.specs.Calls.{IsOf, room};
ghost use Rattle.git_crew.specs.Members.{IsKept, IsMember, HasTaken};

use crate::expand::expand;
use crate::gate::Gate;
use git_machine::{CloseFault, Found, Successors};
use git_share::Hints;
use git_table::{Frontier, Hinted, Seat, Taken};
use std::alloc::Global;
use std::sync::Wait;
use std::thread::yield_now;

/// How far a member came.
#[derive(Clone, Copy, PartialEq, Eq)]
pub enum End {
    /// It has no hand, and may take the next id.
    Working,
    /// It found nothing queued or in hand any more.
    Quiet,
    /// It was answered `Full`.
    Full,
    /// It met want of memory, or was told to stop.
    Stopped,
}

/// A worker's seat, what it found, its hints, and how far it came.
#[derive(Drop)]
pub struct Member<G: Successors>
where
    G::Payload: Drop,
{
    pub seat: Seat<G>,
    pub found: Vec<Found<G::Payload>>,
    pub hints: Hints,
    pub end: End,
}

/// Expands the id in hand, and tells the others to stop where that can't be done.
fn work_on<G: Successors>(
    alloc: Global,
    frontier: &Frontier<G>,
    graph: &G,
    id: u32,
    member: &mut Member<G>,
)
where
    G::Payload: Drop,
    requires graph { frontier.now.graph ≡ graph.now }
    requires taken { HasTaken G.next G.payload frontier.now id member.old }
    ensures { IsMember G.next G.payload frontier.now 1 member.new }
{
    member.end = match expand(
        alloc,
        frontier,
        graph,
        id,
        &mut member.seat,
        &mut member.hints,
        &mut member.found,
    ) {
        Ok(()) => return,
        Err(CloseFault::Full) => End::Full,
        Err(CloseFault::NoMemory) => End::Stopped,
    };
    frontier.halt(&mut member.seat);
}

/// Takes the first id that is hinted and queued. None where there is no hint, or where all are to stop.
fn hinted<G: Successors>(frontier: &Frontier<G>, member: &mut Member<G>) -> Option<u32>
where
    G::Payload: Drop,
    requires member { IsMember G.next G.payload frontier.now 1 member.old }
    requires working { member.old.end ≡ End.Working }
    ensures taken { IfSome result (λ id. HasTaken G.next G.payload frontier.now id member.new) }
    ensures none { IsNone result → IsMember G.next G.payload frontier.now 1 member.new × (member.new.end ≡ End.Working) }
{
    if frontier.stopped(&mut member.seat) {
        return None;
    }
    // no crew makes more hints than ids
    for _look in 0..65600 {
        let Some(id) = member.hints.next() else {
            return None;
        };
        match frontier.take_hint(&mut member.seat, id) {
            Hinted::Work(id) => return Some(id),
            Hinted::Gone => {}
        }
    }
    None
}

/// Takes an id that is found queued and expands it. Where none was found, but one is in hand, it gives its
/// processor away.
fn scan<G: Successors, T: Gate>(
    alloc: Global,
    frontier: &Frontier<G>,
    graph: &G,
    gate: &T,
    number: u64,
    member: &mut Member<G>,
)
where
    G::Payload: Drop,
    requires graph { frontier.now.graph ≡ graph.now }
    requires member { IsMember G.next G.payload frontier.now 1 member.old }
    requires working { member.old.end ≡ End.Working }
    ensures { IsMember G.next G.payload frontier.now 1 member.new }
{
    match frontier.take(&mut member.seat) {
        Taken::NotYet => yield_now(),
        Taken::Quiet => member.end = End::Quiet,
        Taken::Halted => member.end = End::Stopped,
        Taken::Work(id) => {
            gate.enter(number, u64::from(id));
            work_on(alloc, frontier, graph, id, member);
        }
    }
}

/// Takes an id and expands it: one that is hinted, or else one that is found queued.
fn step<G: Successors, T: Gate>(
    alloc: Global,
    frontier: &Frontier<G>,
    graph: &G,
    gate: &T,
    number: u64,
    member: &mut Member<G>,
)
where
    G::Payload: Drop,
    requires graph { frontier.now.graph ≡ graph.now }
    requires member { IsMember G.next G.payload frontier.now 1 member.old }
    requires working { member.old.end ≡ End.Working }
    ensures { IsMember G.next G.payload frontier.now 1 member.new }
{
    match hinted(frontier, member) {
        Some(id) => {
            gate.enter(number, u64::from(id));
            work_on(alloc, frontier, graph, id, member);
        }
        None => scan(alloc, frontier, graph, gate, number, member),
    }
}

/// Works until nothing is queued or in hand, or a member can't go on.
pub(crate) fn work<R: Wait, G: Successors, T: Gate>(
    rt: &R,
    alloc: Global,
    frontier: &Frontier<G>,
    graph: &G,
    gate: &T,
    number: u64,
    member: &mut Member<G>,
)
where
    G::Payload: Drop,
    requires graph { frontier.now.graph ≡ graph.now }
    requires member { IsMember G.next G.payload frontier.now 1 member.old }
    ensures { IsMember G.next G.payload frontier.now 1 member.new }
{
    for _round in rt.forever() {
        match member.end {
            End::Working => step(alloc, frontier, graph, gate, number, member),
            End::Quiet | End::Full | End::Stopped => return,
        }
    }
}
