//! The closure machine as a value, for graphs of signatures.
ghost use Rattle.std.specs.Prelude.{◌≡◌, ◌<◌, ◌+◌, ◌^◌, ◌↔◌, ℕ, List, [], Err, IfOk, OnOk, OnErr, IsTrue, None, Some, length, slice_get, slice_index, slice_index_or};
ghost use Rattle.std.specs.List.{Contains};
ghost use Rattle.git_machine.specs.Signatures.{Signature};
ghost use Rattle.git_machine.specs.Reach.{Reached};
ghost use Rattle.git_machine.specs.Machine.{IsIdle, IsListed, happens, opening};
ghost use Rattle.git_machine.specs.States.{GivesNext, IsAllowed, event_of, state_of};

use crate::event::{Event, StepFault};
use crate::lists::{
    contains, contains_all, hand_at, has_hand, is_in_hand, is_waiting, no_hand, no_queued,
};
use crate::place::Place;
use crate::{Expansion, Sig, Successors};
use git_base::NoMemory;
use std::alloc::Global;
use std::marker::Model;

/// A state of the closure machine over a graph, which it refers to.
///
/// Ids are given in the order of listing, from 0 on. Each call looks through all listed signatures: this
/// is the definition made to run, and the engines keep their own order.
#[derive(Drop)]
pub struct State<'a, G: Successors> {
    graph: &'a G,
    listed: Vec<Sig>,
    places: Vec<Place>,
    hands: Vec<Option<u32>>,
}

impl<'a, G: Successors> Model for State<'a, G> {
    ghost use Rattle.git_machine.specs.States.{Kept, kept_code, IsKept};

    ghost Value = { Kept G };

    ghost coded = { kept_code G.code };

    ghost view = { λ s. record { graph = s.graph.now; listed = s.listed.items; places = s.places.items; hands = s.hands.items } };

    ghost invariant = { λ s. IsKept (G.next s.graph.now) (G.legal s.graph.now) (record { graph = s.graph.now; listed = s.listed.items; places = s.places.items; hands = s.hands.items }) };
}

impl<'a, G: Successors> State<'a, G> {
    /// The opening: id 0 is listed as `first` and queued, and no worker has a hand.
    pub fn new(
        alloc: Global,
        graph: &'a G,
        first: &Sig,
        workers: u32,
    ) -> Result<State<'a, G>, NoMemory>
        requires legal { G.legal graph.now first.now }
        requires workers { 0 < workers }
        ensures opens { IfOk result (λ s. state_of s ≡ opening first.now) }
        ensures graph { IfOk result (λ s. s.graph ≡ graph.now) }
        ensures workers { IfOk result (λ s. length s.hands ≡ workers) }
    {
        let mut listed = Vec::new(alloc);
        listed.push(first.copied(alloc)?)?;
        let mut places = Vec::new(alloc);
        places.push(Place::Queued)?;
        let mut hands = Vec::new(alloc);
        for _worker in 0..workers {
            hands.push(None)?;
        }
        Ok(State {
            graph,
            listed,
            places,
            hands,
        })
    }

    /// The number of listed signatures. Their ids are below it.
    pub fn count(&self) -> usize
        ensures { result ≡ length self.now.listed }
    {
        self.listed.len()
    }

    /// The signature of a listed id.
    pub fn sig(&self, id: usize) -> &Sig
        requires { id < length self.now.listed }
        ensures { slice_get self.now.listed id ≡ Some result.now }
    {
        &self.listed[id]
    }

    /// Whether nothing is queued and no worker has a hand.
    pub fn is_idle(&self) -> bool
        ensures idle { IsTrue result ↔ IsIdle (state_of self.now) }
        ensures reach { IsTrue result → (first : Signature) → slice_get self.now.listed 0 ≡ Some first → (s : Signature) → Reached (G.next self.now.graph) first s ↔ Contains self.now.listed s }
    {
        no_queued(self.places.as_slice()) && no_hand(self.hands.as_slice())
    }

    fn publish(&mut self, next: &[Sig], worker: u32, sig: Sig) -> Result<(), StepFault>
        requires { GivesNext (G.next self.old.graph) self.old (Event.Publish worker sig) next.now }
        ensures done { OnOk result (IsAllowed (G.next self.old.graph) self.old (Event.Publish worker sig) × (state_of self.new ≡ happens (state_of self.old) (event_of self.old (Event.Publish worker sig)))) }
        ensures refused { result ≡ Err StepFault.NotEnabled → ¬ IsAllowed (G.next self.old.graph) self.old (Event.Publish worker sig) }
        ensures memory { result ≡ Err StepFault.NoMemory → IsAllowed (G.next self.old.graph) self.old (Event.Publish worker sig) }
        ensures unchanged { OnErr result (self.new ≡ self.old) }
        ensures graph { self.new.graph ≡ self.old.graph }
        ensures workers { length self.new.hands ≡ length self.old.hands }
    {
        if self.listed.len() >= u32::MAX as usize {
            return Err(StepFault::NotEnabled);
        }
        if !has_hand(self.hands.as_slice(), worker) {
            return Err(StepFault::NotEnabled);
        }
        if !contains(next, &sig) {
            return Err(StepFault::NotEnabled);
        }
        if contains(self.listed.as_slice(), &sig) {
            return Err(StepFault::NotEnabled);
        }
        if self.places.push(Place::Queued).is_err() {
            return Err(StepFault::NoMemory);
        }
        if self.listed.push(sig).is_err() {
            let _ = self.places.pop();
            return Err(StepFault::NoMemory);
        }
        Ok(())
    }

    fn meet(&mut self, next: &[Sig], worker: u32, id: u32) -> Result<(), StepFault>
        requires { GivesNext (G.next self.old.graph) self.old (Event.Meet worker id) next.now }
        ensures done { OnOk result (IsAllowed (G.next self.old.graph) self.old (Event.Meet worker id)) }
        ensures refused { OnErr result (¬ IsAllowed (G.next self.old.graph) self.old (Event.Meet worker id)) }
        ensures fault { OnErr result (result ≡ Err StepFault.NotEnabled) }
        ensures unchanged { self.new ≡ self.old }
    {
        let i = id as usize;
        if i >= self.listed.len() {
            return Err(StepFault::NotEnabled);
        }
        if !has_hand(self.hands.as_slice(), worker) {
            return Err(StepFault::NotEnabled);
        }
        if !contains(next, &self.listed[i]) {
            return Err(StepFault::NotEnabled);
        }
        Ok(())
    }

    fn take(&mut self, worker: u32, id: u32) -> Result<(), StepFault>
        ensures done { OnOk result (IsAllowed (G.next self.old.graph) self.old (Event.Take worker id) × (state_of self.new ≡ happens (state_of self.old) (event_of self.old (Event.Take worker id)))) }
        ensures refused { OnErr result (¬ IsAllowed (G.next self.old.graph) self.old (Event.Take worker id)) }
        ensures fault { OnErr result (result ≡ Err StepFault.NotEnabled) }
        ensures unchanged { OnErr result (self.new ≡ self.old) }
        ensures graph { self.new.graph ≡ self.old.graph }
        ensures workers { length self.new.hands ≡ length self.old.hands }
    {
        let (w, i) = (worker as usize, id as usize);
        if w >= self.hands.len() || i >= self.places.len() {
            return Err(StepFault::NotEnabled);
        }
        if has_hand(self.hands.as_slice(), worker) {
            return Err(StepFault::NotEnabled);
        }
        if !is_waiting(self.places.as_slice(), id) {
            return Err(StepFault::NotEnabled);
        }
        self.hands[w] = Some(id);
        self.places[i] = Place::InHand;
        Ok(())
    }

    fn finish(&mut self, next: &[Sig], worker: u32, id: u32) -> Result<(), StepFault>
        requires { GivesNext (G.next self.old.graph) self.old (Event.Finish worker id) next.now }
        ensures done { OnOk result (IsAllowed (G.next self.old.graph) self.old (Event.Finish worker id) × (state_of self.new ≡ happens (state_of self.old) (event_of self.old (Event.Finish worker id)))) }
        ensures refused { OnErr result (¬ IsAllowed (G.next self.old.graph) self.old (Event.Finish worker id)) }
        ensures fault { OnErr result (result ≡ Err StepFault.NotEnabled) }
        ensures unchanged { OnErr result (self.new ≡ self.old) }
        ensures graph { self.new.graph ≡ self.old.graph }
        ensures workers { length self.new.hands ≡ length self.old.hands }
    {
        let (w, i) = (worker as usize, id as usize);
        if !is_in_hand(self.hands.as_slice(), worker, id) {
            return Err(StepFault::NotEnabled);
        }
        if !contains_all(self.listed.as_slice(), next) {
            return Err(StepFault::NotEnabled);
        }
        self.hands[w] = None;
        self.places[i] = Place::Finished;
        Ok(())
    }

    fn next_of_hand(&self, alloc: Global, worker: u32) -> Result<Vec<Sig>, NoMemory>
    where
        G::Payload: Drop,
        ensures of_hand { IfOk result (λ ns. (id : ℕ) (s : Signature) → slice_index_or self.now.hands worker None ≡ Some id → slice_get self.now.listed id ≡ Some s → G.next self.now.graph s ns.items) }
        ensures no_hand { IfOk result (λ ns. slice_index_or self.now.hands worker None ≡ None → ns.items ≡ []) }
    {
        let Some(id) = hand_at(self.hands.as_slice(), worker) else {
            return Ok(Vec::new(alloc));
        };
        let Expansion { next, payload: _ } = self.graph.expand(alloc, &self.listed[id as usize])?;
        Ok(next)
    }

    /// The next of the signature in the hand of the event's worker, and nothing where there is no hand:
    /// what [`State::step`] asks for.
    pub fn next_for(&self, alloc: Global, event: &Event) -> Result<Vec<Sig>, NoMemory>
    where
        G::Payload: Drop,
        ensures { IfOk result (λ ns. GivesNext (G.next self.now.graph) self.now event.now ns.items) }
    {
        match event {
            Event::Publish { worker, sig: _ } => self.next_of_hand(alloc, *worker),
            Event::Meet { worker, id: _ } => self.next_of_hand(alloc, *worker),
            Event::Take { worker, id: _ } => self.next_of_hand(alloc, *worker),
            Event::Finish { worker, id: _ } => self.next_of_hand(alloc, *worker),
            Event::Quiet => Ok(Vec::new(alloc)),
        }
    }

    /// Lets an event happen. `next` is the next of the signature in the hand of the event's worker.
    ///
    /// # Errors
    ///
    /// `NotEnabled` exactly where the event isn't enabled, its worker isn't one of the machine's, or it is
    /// a Publish with 2^32 - 1 signatures listed. After an error the state is as before.
    pub fn step(&mut self, next: &[Sig], event: Event) -> Result<(), StepFault>
        requires { GivesNext (G.next self.old.graph) self.old event next.now }
        ensures done { OnOk result (state_of self.new ≡ happens (state_of self.old) (event_of self.old event)) }
        ensures allowed { OnOk result (IsAllowed (G.next self.old.graph) self.old event) }
        ensures refused { (result ≡ Err StepFault.NotEnabled) ↔ ¬ IsAllowed (G.next self.old.graph) self.old event }
        ensures unchanged { OnErr result (self.new ≡ self.old) }
        ensures graph { self.new.graph ≡ self.old.graph }
        ensures workers { length self.new.hands ≡ length self.old.hands }
    {
        match event {
            Event::Publish { worker, sig } => self.publish(next, worker, sig),
            Event::Meet { worker, id } => self.meet(next, worker, id),
            Event::Take { worker, id } => self.take(worker, id),
            Event::Finish { worker, id } => self.finish(next, worker, id),
            Event::Quiet => {
                if self.is_idle() {
                    Ok(())
                } else {
                    Err(StepFault::NotEnabled)
                }
            }
        }
    }
}
