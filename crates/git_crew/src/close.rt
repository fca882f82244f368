//! The closure by a crew.
ghost use Rattle.std.specs.Prelude.{◌≡◌, ◌+◌, ◌*◌, ◌<◌, ◌≤◌, ◌^◌, false, length, Err, IfOk, OnOk};
ghost use Rattle.std.specs.List.{All, AllPairs};
ghost use Rattle.std.specs.List.Sorted.{IsPermutation};
ghost use Rattle.std.specs.Ordering.{is_lt};
ghost use Rattle.git_machine.specs.Signatures.{signature_cmp};
ghost use Rattle.git_machine.specs.Reach.{IsReach, ReachExceeds};
ghost use Rattle.git_plain.specs.Closing.{InOrder, signatures_of};
ghost use Rattle.git_table.specs.Calls.{IsOf, first_seat};
ghost use Rattle.git_crew.specs.Members.{IsReady, IsMember};

use crate::gate::Gate;
use crate::join::join_all;
use crate::member::{End, Member, work};
use git_base::NoMemory;
use git_limits::{SIGNATURES, WORDS, WORKERS};
use git_machine::{CloseFault, Closed, Found, Sig, Successors};
use git_share::Hints;
use git_table::{Frontier, Seat};
use std::alloc::Global;
use std::sync::Wait;
use std::thread::{Threads, for_each_mut};

/// A member for each place of the seat.
fn members<G: Successors>(
    alloc: Global,
    frontier: &Frontier<G>,
    seat: Seat<G>,
    cap: u32,
    workers: u32,
) -> Result<Vec<Member<G>>, NoMemory>
where
    G::Payload: Drop,
    requires seat { seat ≡ first_seat frontier.now }
    requires cap { (frontier.now.cap ≡ cap) × (cap ≤ SIGNATURES) }
    requires workers { (frontier.now.workers ≡ workers) × (0 < workers) × (workers ≤ WORKERS) }
    ensures long { IfOk result (λ l. length l.items ≡ workers) }
    ensures members { IfOk result (λ l. All (IsMember G.next G.payload frontier.now 1) l.items) }
{
    let mut seat = seat;
    let mut hints = Hints::new(alloc, workers as usize, cap + workers)?;
    let mut all = Vec::new(alloc);
    for _k in 1..workers {
        let (rest, one) = frontier.split(seat);
        seat = rest;
        let Some(own) = hints.pop() else {
            unreachable!()
        };
        all.push(Member {
            seat: one,
            found: Vec::new(alloc),
            hints: own,
            end: End::Working,
        })?;
    }
    let Some(own) = hints.pop() else {
        unreachable!()
    };
    all.push(Member {
        seat,
        found: Vec::new(alloc),
        hints: own,
        end: End::Working,
    })?;
    Ok(all)
}

/// All members work, each on a thread where one can be made.
fn work_all<R: Threads + Wait + Sync, G: Successors + Send + Sync, T: Gate + Sync>(
    rt: &R,
    alloc: Global,
    frontier: &Frontier<G>,
    graph: &G,
    gate: &T,
    members: &mut [Member<G>],
    workers: u32,
)
where
    G::Payload: Drop + Send,
    requires some { 0 < workers }
    requires graph { frontier.now.graph ≡ graph.now }
    requires members { All (IsMember G.next G.payload frontier.now 1) members.old }
    ensures { All (IsMember G.next G.payload frontier.now 1) members.new }
{
    let each = |i: usize, member: &mut Member<G>|
        requires { (frontier.now.graph ≡ graph.now) × IsMember G.next G.payload frontier.now 1 member.now }
        ensures { IsMember G.next G.payload frontier.entry.now 1 member.exit.now }
    { work(rt, alloc, frontier, graph, gate, i as u64, member) };
    for_each_mut(rt, members, workers as usize, &each);
}

/// The members after their work.
fn worked<R: Threads + Wait + Sync, G: Successors + Send + Sync, T: Gate + Sync>(
    rt: &R,
    alloc: Global,
    frontier: &Frontier<G>,
    graph: &G,
    gate: &T,
    mut members: Vec<Member<G>>,
    workers: u32,
) -> Vec<Member<G>>
where
    G::Payload: Drop + Send,
    requires some { 0 < workers }
    requires graph { frontier.now.graph ≡ graph.now }
    requires members { All (IsMember G.next G.payload frontier.now 1) members.items }
    ensures long { length result.items ≡ length members.items }
    ensures members { All (IsMember G.next G.payload frontier.now 1) result.items }
{
    work_all(
        rt,
        alloc,
        frontier,
        graph,
        gate,
        members.as_mut_slice(),
        workers,
    );
    members
}

/// What is found, in the order of signatures.
fn in_order<P>(mut found: Vec<Found<P>>) -> Vec<Found<P>>
    ensures same { IsPermutation found.items result.items }
    ensures sorted { AllPairs (λ a b. is_lt (signature_cmp b.sig a.sig) ≡ false) result.items }
{
    found.sort_unstable_by(|a, b| a.sig.cmp(&b.sig));
    found
}

/// What a crew found that ended quietly, if it isn't more than the cap.
fn listed<G: Successors>(
    frontier: Frontier<G>,
    seat: Seat<G>,
    found: Vec<Found<G::Payload>>,
    cap: u32,
) -> Result<Vec<Found<G::Payload>>, CloseFault>
where
    G::Payload: Drop,
    requires of { IsOf frontier seat }
    requires ready { IsReady G.next G.payload frontier frontier.workers seat found.items }
    requires quiet { seat.quiet ≡ 1 }
    ensures reach { IfOk result (λ l. IsReach (G.next frontier.graph) frontier.first (signatures_of l.items)) }
    ensures payloads { IfOk result (λ l. All (λ f. G.payload frontier.graph f.sig f.payload) l.items) }
    ensures few { IfOk result (λ l. length l.items ≤ cap) }
    ensures full { result ≡ Err CloseFault.Full → ReachExceeds (G.next frontier.graph) frontier.first cap }
{
    if frontier.count(seat) > cap as usize {
        return Err(CloseFault::Full);
    }
    Ok(found)
}

/// What a crew found, by how it ended.
fn ended<G: Successors>(
    frontier: Frontier<G>,
    all: Member<G>,
    cap: u32,
) -> Result<Vec<Found<G::Payload>>, CloseFault>
where
    G::Payload: Drop,
    requires cap { frontier.cap ≡ cap }
    requires member { IsMember G.next G.payload frontier frontier.workers all }
    ensures reach { IfOk result (λ l. IsReach (G.next frontier.graph) frontier.first (signatures_of l.items)) }
    ensures payloads { IfOk result (λ l. All (λ f. G.payload frontier.graph f.sig f.payload) l.items) }
    ensures few { IfOk result (λ l. length l.items ≤ cap) }
    ensures full { result ≡ Err CloseFault.Full → ReachExceeds (G.next frontier.graph) frontier.first cap }
{
    let Member {
        seat,
        found,
        hints: _,
        end,
    } = all;
    match end {
        End::Quiet => listed(frontier, seat, found, cap),
        End::Full => {
            frontier.close_full(seat);
            Err(CloseFault::Full)
        }
        End::Working | End::Stopped => Err(CloseFault::NoMemory),
    }
}

/// All that is reached, in the order in which the members found it.
fn explore<R: Threads + Wait + Sync, G: Successors + Send + Sync, T: Gate + Sync>(
    rt: &R,
    alloc: Global,
    graph: &G,
    first: &Sig,
    cap: u32,
    workers: u32,
    gate: &T,
) -> Result<Vec<Found<G::Payload>>, CloseFault>
where
    G::Payload: Drop + Send,
    requires legal { G.legal graph.now first.now }
    requires sizes { (0 < cap) × (cap ≤ SIGNATURES) × (0 < workers) × (workers ≤ WORKERS) × ((cap + workers) * length first.now ≤ WORDS) }
    ensures reach { IfOk result (λ l. IsReach (G.next graph.now) first.now (signatures_of l.items)) }
    ensures payloads { IfOk result (λ l. All (λ f. G.payload graph.now f.sig f.payload) l.items) }
    ensures few { IfOk result (λ l. length l.items ≤ cap) }
    ensures full { result ≡ Err CloseFault.Full → ReachExceeds (G.next graph.now) first.now cap }
{
    let (frontier, seat) = Frontier::new(alloc, graph, cap, workers, first)?;
    let members = members(alloc, &frontier, seat, cap, workers)?;
    let members = worked(rt, alloc, &frontier, graph, gate, members, workers);
    let all = join_all(&frontier, members);
    ended(frontier, all, cap)
}

/// All signatures that are reached from `first`, each once, in order, each with a payload of the graph, found
/// by so many workers at once. The gate is told of each id before its expansion.
///
/// `cap` is from 1 to 65,536, `workers` from 1 to 64, and a record for each of `cap + workers` signatures
/// takes at most 2^24 words. A worker that finds nothing to take, while another has a hand, gives its
/// processor away and looks again.
///
/// # Errors
///
/// `Full` exactly where more than `cap` signatures are reached, unless memory runs out before.
pub fn close_over_with<R: Threads + Wait + Sync, G: Successors + Send + Sync, T: Gate + Sync>(
    rt: &R,
    alloc: Global,
    graph: &G,
    first: &Sig,
    cap: u32,
    workers: u32,
    gate: &T,
) -> Result<Closed<G::Payload>, CloseFault>
where
    G::Payload: Drop + Send,
    requires legal { G.legal graph.now first.now }
    requires some { 1 ≤ cap }
    requires few { cap ≤ SIGNATURES }
    requires workers { (1 ≤ workers) × (workers ≤ WORKERS) }
    requires room { (cap + workers) * length first.now ≤ WORDS }
    ensures reach { IfOk result (λ c. IsReach (G.next graph.now) first.now (signatures_of c.found.items)) }
    ensures order { IfOk result (λ c. InOrder (signatures_of c.found.items)) }
    ensures payloads { IfOk result (λ c. All (λ f. G.payload graph.now f.sig f.payload) c.found.items) }
    ensures full { result ≡ Err CloseFault.Full → ReachExceeds (G.next graph.now) first.now cap }
    ensures fits { OnOk result (¬ ReachExceeds (G.next graph.now) first.now cap) }
{
    let found = match explore(rt, alloc, graph, first, cap, workers, gate) {
        Ok(found) => found,
        Err(fault) => return Err(fault),
    };
    Ok(Closed {
        found: in_order(found),
    })
}
