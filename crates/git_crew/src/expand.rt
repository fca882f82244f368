//! One expansion.
ghost use Rattle.std.specs.Prelude.{◌≡◌, ◌∷◌, ℕ, IsTrue, false, length, Err, IfOk, OnOk, None, Some};
ghost use Rattle.std.specs.List.{Contains};
ghost use Rattle.git_machine.specs.Signatures.{Signature};
ghost use Rattle.git_machine.specs.Reach.{Reached};
ghost use Rattle.git_table.specs.Calls.{IsOf, Sees, room};
ghost use Rattle.git_crew.specs.Members.{IsKept, Keeps, IsReady};

use git_base::NoMemory;
use git_machine::{CloseFault, Expansion, Found, Sig, Successors};
use git_share::Hints;
use git_table::{Frontier, Offer, Seat};
use std::alloc::Global;

/// The words of the signature of the id in hand, in a buffer of their number.
fn read_into<G: Successors>(
    frontier: &Frontier<G>,
    id: u32,
    mut words: Vec<u64>,
    seat: &mut Seat<G>,
) -> Vec<u64>
    requires of { IsOf frontier.now seat.old }
    requires hand { seat.old.hand ≡ Some id }
    requires wide { length words.items ≡ G.words frontier.now.graph }
    ensures seen { seat.new ≡ record seat.old { seen = (id, result.items) ∷ seat.old.seen } }
    ensures legal { G.legal frontier.now.graph result.items }
    ensures reached { Reached (G.next frontier.now.graph) frontier.now.first result.items }
{
    frontier.read(seat, id, words.as_mut_slice());
    words
}

/// The signature of the id in hand.
fn read_hand<G: Successors>(
    alloc: Global,
    frontier: &Frontier<G>,
    graph: &G,
    id: u32,
    seat: &mut Seat<G>,
) -> Result<Sig, NoMemory>
    requires graph { frontier.now.graph ≡ graph.now }
    requires of { IsOf frontier.now seat.old }
    requires hand { seat.old.hand ≡ Some id }
    ensures of { IsOf frontier.now seat.new }
    ensures seen { IfOk result (λ x. seat.new ≡ record seat.old { seen = (id, x) ∷ seat.old.seen }) }
    ensures legal { IfOk result (λ x. G.legal graph.now x) }
    ensures reached { IfOk result (λ x. Reached (G.next frontier.now.graph) frontier.now.first x) }
{
    let words = vec![in alloc; 0; graph.width()]?;
    Ok(Sig::of_words(read_into(frontier, id, words, seat)))
}

/// Offers each of those to which the hand leads, and hints the new ones. Says whether the frontier had room.
fn offer_all<G: Successors>(
    frontier: &Frontier<G>,
    id: u32,
    sig: &Sig,
    next: &Vec<Sig>,
    seat: &mut Seat<G>,
    hints: &mut Hints,
) -> bool
    requires of { IsOf frontier.now seat.old }
    requires hand { (seat.old.hand ≡ Some id) × Sees seat.old id sig.now }
    requires next { G.next frontier.now.graph sig.now next.now.items }
    requires fits { hints.old.room ≡ room frontier.now }
    ensures keeps { Keeps seat.old seat.new }
    ensures fits { hints.new.room ≡ room frontier.now }
    ensures offered { IsTrue result → (x : Signature) → Contains next.now.items x → (q : ℕ) × Sees seat.new q x }
    ensures full { result ≡ false → seat.new.full ≡ 1 }
{
    for i in 0..next.len() {
        match frontier.offer(seat, &next[i]) {
            // what isn't hinted is found by a scan
            Offer::New(new) => {
                hints.push(new);
                continue;
            }
            Offer::Seen(_id) => continue,
            Offer::Full => return false,
        }
    }
    true
}

/// Expands the id in hand, offers all to which it leads, hints what is new, keeps what was found, and
/// finishes the id.
pub(crate) fn expand<G: Successors>(
    alloc: Global,
    frontier: &Frontier<G>,
    graph: &G,
    id: u32,
    seat: &mut Seat<G>,
    hints: &mut Hints,
    found: &mut Vec<Found<G::Payload>>,
) -> Result<(), CloseFault>
where
    G::Payload: Drop,
    requires graph { frontier.now.graph ≡ graph.now }
    requires of { IsOf frontier.now seat.old }
    requires hand { seat.old.hand ≡ Some id }
    requires kept { IsKept G.next G.payload frontier.now seat.old found.old.items }
    requires fits { hints.old.room ≡ room frontier.now }
    ensures of { IsOf frontier.now seat.new }
    ensures fits { hints.new.room ≡ room frontier.now }
    ensures done { OnOk result (IsReady G.next G.payload frontier.now seat.old.places seat.new found.new.items) }
    ensures full { result ≡ Err CloseFault.Full → seat.new.full ≡ 1 }
{
    let sig = read_hand(alloc, frontier, graph, id, seat)?;
    let Expansion { next, payload } = graph.expand(alloc, &sig)?;
    if !offer_all(frontier, id, &sig, &next, seat, hints) {
        return Err(CloseFault::Full);
    }
    if found.push(Found { sig, payload }).is_err() {
        return Err(CloseFault::NoMemory);
    }
    frontier.finish(seat);
    Ok(())
}
