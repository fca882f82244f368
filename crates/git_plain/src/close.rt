//! The engine: what is listed is expanded in the order of finding.
ghost use Rattle.std.specs.Prelude.{◌≡◌, ◌≤◌, ◌<◌, Err, IfOk, OnOk, length};
ghost use Rattle.std.specs.List.{All};
ghost use Rattle.git_machine.specs.Reach.{IsReach, ReachExceeds};
ghost use Rattle.git_plain.specs.Closing.{InOrder, signatures_of};

use crate::listing::{in_order, list_all};
use git_machine::{CloseFault, Closed, Expansion, Found, Sig, Successors};
use indexmap::IndexSet;
use std::alloc::Global;

/// What is reached, in the order of finding.
fn explore<G: Successors>(
    alloc: Global,
    graph: &G,
    first: &Sig,
    cap: usize,
) -> Result<Vec<Found<G::Payload>>, CloseFault>
where
    G::Payload: Drop,
    requires legal { G.legal graph.now first.now }
    requires cap { 0 < cap }
    ensures reach { IfOk result (λ found. IsReach (G.next graph.now) first.now (signatures_of found.items)) }
    ensures payloads { IfOk result (λ found. All (λ f. G.payload graph.now f.sig f.payload) found.items) }
    ensures few { IfOk result (λ found. length found.items ≤ cap) }
    ensures full { result ≡ Err CloseFault.Full → ReachExceeds (G.next graph.now) first.now cap }
{
    let mut sigs = IndexSet::new(alloc);
    if sigs.insert(first.copied(alloc)?).is_err() {
        return Err(CloseFault::NoMemory);
    }
    let mut found = Vec::new(alloc);
    while let Some(listed) = sigs.get_index(found.len()) {
        let Expansion { next, payload } = graph.expand(alloc, listed)?;
        let sig = listed.copied(alloc)?;
        if found.push(Found { sig, payload }).is_err() {
            return Err(CloseFault::NoMemory);
        }
        if let Err(fault) = list_all(&mut sigs, next, cap) {
            return Err(fault);
        }
    }
    Ok(found)
}

/// All signatures that are reached from `first`, each once, in order, each with a payload of the graph.
///
/// It is the closure machine with one worker, which takes the ids in the order of listing, so that neither
/// a queue nor a hand has to be kept. It takes time in proportion to the members of all nexts and the
/// words of each, on average, and then that of a sort.
///
/// # Errors
///
/// `Full` exactly where more than `cap` signatures are reached, unless memory runs out before.
pub fn close_over<G: Successors>(
    alloc: Global,
    graph: &G,
    first: &Sig,
    cap: u32,
) -> Result<Closed<G::Payload>, CloseFault>
where
    G::Payload: Drop,
    requires legal { G.legal graph.now first.now }
    requires some { 1 ≤ cap }
    requires few { cap ≤ 65536 }
    ensures reach { IfOk result (λ c. IsReach (G.next graph.now) first.now (signatures_of c.found.items)) }
    ensures order { IfOk result (λ c. InOrder (signatures_of c.found.items)) }
    ensures payloads { IfOk result (λ c. All (λ f. G.payload graph.now f.sig f.payload) c.found.items) }
    ensures full { result ≡ Err CloseFault.Full → ReachExceeds (G.next graph.now) first.now cap }
    ensures fits { OnOk result (¬ ReachExceeds (G.next graph.now) first.now cap) }
{
    let found = match explore(alloc, graph, first, cap as usize) {
        Ok(found) => found,
        Err(fault) => return Err(fault),
    };
    Ok(Closed {
        found: in_order(found),
    })
}
