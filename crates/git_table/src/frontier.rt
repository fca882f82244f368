//! The frontier, as its callers see it.
ghost use Rattle.std.specs.Prelude.{◌≡◌, ◌⊎◌, ◌<◌, ◌≤◌, ◌+◌, ◌-◌, ◌*◌, ◌^◌, ℕ, List, [], ◌∷◌, length, IfOk, Some, None};
ghost use Rattle.git_machine.specs.Signatures.{Signature};
ghost use Rattle.git_machine.specs.Reach.{LeadsTo, Reached, ReachExceeds};
ghost use Rattle.git_table.specs.Calls.{IsOf, Sees, room, first_seat, joined_seat, HandLeads, OfferTells, TakeTells, HintTells, StopTells, IsListing};

use crate::answers::{Hinted, Listed, Offer, Taken};
use crate::seat::{Seat, hinted_hand, taken_hand};
use crate::stack::{behind, front, pile, put};
use crate::visited::Visited;
use git_base::NoMemory;
use git_limits::{SIGNATURES, WORDS, WORKERS};
use git_machine::{Sig, Successors};
use std::alloc::Global;
use std::marker::Model;

/// The signatures that callers have found, each with an id, shared by all of them. No call waits.
#[derive(Drop)]
pub struct Frontier<G: Successors> {
    pub(crate) visited: Visited<G>,
}

impl<G: Successors> Model for Frontier<G> {
    ghost use Rattle.git_table.specs.Views.{FrontierView, frontier_code, frontier_view, IsFrontier};

    ghost Value = { FrontierView G };

    ghost coded = { frontier_code G.code };

    ghost view = { λ f. frontier_view f.visited.table.shared.table_id f.visited.table.shared.key };

    ghost invariant = { λ f. IsFrontier G.legal f.visited.table.shared.key };
}

impl<G: Successors> Frontier<G> {
    /// A frontier that has `first` with id 0, queued, and the seat with all of its places.
    ///
    /// `cap` is from 1 to 65,536 and says how many ids there are to be at least; `workers`, from 1 to 64,
    /// how many places, so how many seats there may be at once.
    pub fn new(
        alloc: Global,
        graph: &G,
        cap: u32,
        workers: u32,
        first: &Sig,
    ) -> Result<(Frontier<G>, Seat<G>), NoMemory>
        requires legal { G.legal graph.now first.now }
        requires sizes { (0 < cap) × (cap ≤ SIGNATURES) × (0 < workers) × (workers ≤ WORKERS) × ((cap + workers) * length first.now ≤ WORDS) }
        ensures frontier { IfOk result (λ f. (f.0.graph ≡ graph.now) × (f.0.first ≡ first.now) × (f.0.cap ≡ cap) × (f.0.workers ≡ workers)) }
        ensures seat { IfOk result (λ f. f.1 ≡ first_seat f.0) }
    {
        let (visited, raw) = Visited::new(alloc, graph, cap, workers, first)?;
        let seat = Seat {
            raw,
            spares: [0; WORKERS],
            count: 0,
            hand: None,
        };
        Ok((Frontier { visited }, seat))
    }

    /// The seat, of at least two places and with no hand, with all of its places but one, and a new seat
    /// that has this one and has seen the same.
    pub fn split(&self, seat: Seat<G>) -> (Seat<G>, Seat<G>)
        requires of { IsOf self.now seat }
        requires places { 1 < seat.places }
        requires free { seat.hand ≡ None }
        ensures { (result.0 ≡ record seat { places = seat.places - 1 }) × (result.1 ≡ record seat { places = 1; finished = [] }) }
    {
        let Seat {
            mut raw,
            spares,
            count,
            hand,
        } = seat;
        let other = self.visited.split(&mut raw);
        let mut given = [0; WORKERS];
        let one = put(&mut given, 0, front(&spares, count));
        let seat = Seat {
            raw,
            spares,
            count: behind(count),
            hand,
        };
        let other = Seat {
            raw: other,
            spares: given,
            count: one,
            hand: None,
        };
        (seat, other)
    }

    /// One seat of two that have no hand, with the places of both, what both have seen and finished, and
    /// the marks of both.
    pub fn join(&self, seat: Seat<G>, other: Seat<G>) -> Seat<G>
        requires of { IsOf self.now seat × IsOf self.now other }
        requires free { (seat.hand ≡ None) × (other.hand ≡ None) }
        ensures { result ≡ joined_seat seat other }
    {
        let Seat {
            mut raw,
            spares: top,
            count: more,
            hand,
        } = seat;
        let Seat {
            raw: other,
            mut spares,
            count,
            hand: _,
        } = other;
        self.visited.join(&mut raw, other);
        self.visited.bound(&mut raw);
        pile(&mut spares, count, &top, more);
        Seat {
            raw,
            spares,
            count: count + more,
            hand,
        }
    }

    /// Publishes a signature to which that of the hand leads, unless it is published.
    pub fn offer(&self, seat: &mut Seat<G>, sig: &Sig) -> Offer
        requires of { IsOf self.now seat.old }
        requires leads { HandLeads (G.next self.now.graph) seat.old sig.now }
        ensures { OfferTells self.now seat.old seat.new sig.now result }
    {
        let spare = front(&seat.spares, seat.count);
        let (answer, left) = self.visited.offer(&mut seat.raw, spare, sig);
        seat.count = put(&mut seat.spares, behind(seat.count), left);
        answer
    }

    /// Takes the highest id that it finds queued, for a seat with no hand.
    pub fn take(&self, seat: &mut Seat<G>) -> Taken
        requires of { IsOf self.now seat.old }
        requires free { seat.old.hand ≡ None }
        ensures { TakeTells self.now seat.old seat.new result }
    {
        let taken = self.visited.take(&mut seat.raw);
        seat.hand = taken_hand(taken);
        taken
    }

    /// Takes this id, if it is queued, for a seat with no hand.
    pub fn take_hint(&self, seat: &mut Seat<G>, id: u32) -> Hinted
        requires of { IsOf self.now seat.old }
        requires free { seat.old.hand ≡ None }
        requires inside { id < room self.now }
        ensures { HintTells self.now seat.old seat.new id result }
    {
        let hinted = self.visited.take_hint(&mut seat.raw, id);
        seat.hand = hinted_hand(hinted);
        hinted
    }

    /// Whether a caller said that all are to stop. A take looks at that by itself.
    pub fn stopped(&self, seat: &mut Seat<G>) -> bool
        requires of { IsOf self.now seat.old }
        ensures { StopTells self.now seat.old seat.new result }
    {
        self.visited.stopped(&mut seat.raw)
    }

    /// Writes the words of the signature of an id that is seen or in hand. The buffer has the width of the
    /// graph.
    pub fn read(&self, seat: &mut Seat<G>, id: u32, out: &mut [u64])
        requires of { IsOf self.now seat.old }
        requires known { ((x : Signature) × Sees seat.old id x) ⊎ (seat.old.hand ≡ Some id) }
        requires wide { length out.old ≡ G.words self.now.graph }
        ensures seen { seat.new ≡ record seat.old { seen = (id, out.new) ∷ seat.old.seen } }
        ensures legal { G.legal self.now.graph out.new }
        ensures reached { Reached (G.next self.now.graph) self.now.first out.new }
    {
        self.visited.read(&mut seat.raw, id as usize, out);
    }

    /// Finishes the hand, whose signature is seen, and of which all next are seen.
    pub fn finish(&self, seat: &mut Seat<G>)
        requires of { IsOf self.now seat.old }
        requires hand { (id : ℕ) × (x : Signature) × (seat.old.hand ≡ Some id) × Sees seat.old id x × ((y : Signature) → LeadsTo (G.next self.now.graph) x y → (q : ℕ) × Sees seat.old q y) }
        ensures { (id : ℕ) → seat.old.hand ≡ Some id → seat.new ≡ record seat.old { hand = None; finished = id ∷ seat.old.finished } }
    {
        let Some(id) = seat.hand else { unreachable!() };
        self.visited.finish(&mut seat.raw, id);
        seat.hand = None;
    }

    /// Tells all callers to stop.
    pub fn halt(&self, seat: &mut Seat<G>)
        requires of { IsOf self.now seat.old }
        ensures { seat.new ≡ record seat.old { halted = 1 } }
    {
        self.visited.halt(&mut seat.raw);
    }

    /// How many signatures are published, for a seat that has all places and no hand, or that was answered
    /// `Quiet`. It takes no memory.
    pub fn count(self, seat: Seat<G>) -> usize
        requires of { IsOf self seat }
        requires whole { ((seat.places ≡ self.workers) × (seat.hand ≡ None)) ⊎ (seat.quiet ≡ 1) }
        ensures { (ids : List ℕ) × (sigs : List Signature) × (result ≡ length sigs) × IsListing (G.next self.graph) self seat ids sigs }
    {
        let Frontier { visited } = self;
        let Seat {
            raw,
            spares: _,
            count: _,
            hand: _,
        } = seat;
        visited.count(raw)
    }

    /// The published signatures by their ids, for a seat that has all places and no hand, or that was
    /// answered `Quiet`.
    ///
    /// # Errors
    ///
    /// `NoMemory` gives up the frontier. Memory is taken for as many signatures as are published, before the
    /// first is read.
    pub fn close(self, alloc: Global, seat: Seat<G>) -> Result<Listed, NoMemory>
        requires of { IsOf self seat }
        requires whole { ((seat.places ≡ self.workers) × (seat.hand ≡ None)) ⊎ (seat.quiet ≡ 1) }
        ensures { IfOk result (λ l. (ids : List ℕ) × IsListing (G.next self.graph) self seat ids l.sigs.items) }
    {
        let Frontier { visited } = self;
        let Seat {
            raw,
            spares: _,
            count: _,
            hand: _,
        } = seat;
        let sigs = visited.close(alloc, raw)?;
        Ok(Listed { sigs })
    }

    /// The end, for a seat that was answered `Full`: more than the cap are reached.
    pub fn close_full(self, seat: Seat<G>)
        requires of { IsOf self seat }
        requires full { seat.full ≡ 1 }
        ensures { ReachExceeds (G.next self.graph) self.first self.cap }
    {
        let Frontier { visited } = self;
        let Seat {
            raw,
            spares: _,
            count: _,
            hand: _,
        } = seat;
        visited.end_full(raw);
    }
}
